//! What the tokens of methods and fields of an image name (ECMA-335 II.22.15, II.22.25, II.22.26, II.22.29), kept for each row of
//! MethodDef and Field, and for each row of MemberRef and MethodSpec that is in use: a method or a field with its type, name and
//! signature.
#![tactic(auto)]

mod declared_fields;
mod declared_methods;
mod instances;
mod members;
mod owners;
mod references;
mod signatures;

pub use members::{Members, keep_members};

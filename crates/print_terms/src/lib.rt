//! Types, owners, signatures and references as a listing spells them (ECMA-335 II.7.1, II.14, II.15.3), and single lines of these.
#![tactic(auto)]

mod keys;
mod lines;
mod references;
mod repeats;
mod shapes;
mod types;

pub use keys::{ExternKeys, alias_of};
pub use lines::{own_reference_by, reference_by, type_by};
pub use references::{
    write_arguments, write_convention, write_field_ref, write_method_name, write_method_ref,
    write_own_reference,
};
pub use types::{
    write_int_type, write_owner, write_path, write_type, write_type_name, write_types,
};

//! The terms that stand for types in a signature (ECMA-335 II.23.2), and the references to methods and
//! fields that are made of them: plain trees of names and numbers, their order, their
//! equality, their hashes, their depth and copies.
#![tactic(auto)]

mod compare;
mod copying;
mod depth;
pub mod equality;
pub mod hashing;
mod laws;
mod name;
mod path;
mod reference;
mod term;

pub use compare::{compare_owners, compare_terms};
pub use depth::{MAX_DEPTH, fits};
use il_lists::Items;
pub use laws::orders_are_total;
pub use name::{Scope, TypeId, TypeName};
pub use path::Path;
pub use reference::{FieldRef, MethodRef, MethodSig};
pub use term::{Owner, Primitive as Prim, SigType};

/// A list of types.
pub type Types = Items<SigType>;

/// A list of owners.
pub type Owners = Items<Owner>;

/// A list of method references.
pub type MethodRefs = Items<MethodRef>;

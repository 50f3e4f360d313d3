//! The listing of an assembly, its canonical source, and single references and names as that source spells them (ECMA-335 II.5, II.6).
#![tactic(auto)]

mod lines;
mod places;
mod whole;

pub use lines::{print_reference, print_type};
pub use places::{method_by, print_method};
pub use print_terms::{ExternKeys, reference_by, type_by};
pub use whole::print;

//! Numbers for what the tokens of TypeDef, TypeRef and TypeSpec name (II.22): two tokens have one number exactly where they name one
//! type. A TypeSpec has the number of the first row with an equal term, found by its hash and told by a walk along both signatures.
#![tactic(auto)]

mod by_classes;
mod classes;
mod equal;
mod levels;
mod numbers;

pub use by_classes::name_number;
pub use numbers::OwnerNumbers;

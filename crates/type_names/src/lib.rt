//! Names of types (II.22.32, II.22.37, II.22.38): each TypeDef and TypeRef of an image has a number, and two have one exactly where
//! they name one type; and the demand on nesting and scopes (I13).
#![tactic(auto)]

mod first;
mod names;
mod nodes;
mod scopes;

pub use first::first_unmet_scope;
pub use names::TypeNames;
pub use scopes::Scopes;

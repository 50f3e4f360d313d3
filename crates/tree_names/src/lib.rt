//! The names of types in a tree: they are looked at one by one, and when each gives way to what it is called, a part of the tree
//! keeps its form, its names and its conditions.
#![tactic(auto)]

mod laws;
mod named;

pub use laws::{names_are_called, terms_keep_their_form, what_is_called_is_formed};
pub use named::{Looks, Named, show_declarations};

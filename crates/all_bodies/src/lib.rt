//! The check of all bodies of an assembly, one after the other, and how many there are (ECMA-335 II.15, III.1.8).
//!
//! The methods of `<Module>` come first, and then those of the types in preorder: those of a type before those of the types
//! that it nests.
#![tactic(auto)]

mod checking;
mod counting;
mod laws;
mod places;

pub use checking::check_all;
pub use counting::{Counts, count};
pub use laws::each_body_is_listed;

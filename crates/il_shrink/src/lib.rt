//! The same assembly with as many short branches as can be (III.3): in each body, a branch is short wherever it is in any
//! choice of forms in which each short branch reaches its target.
#![tactic(auto)]

mod assemblies;
mod bodies;
mod branches;
mod forms;
mod laws;
mod methods;
mod order;
mod types;

pub use assemblies::{shrink_all, shrink_in_place};
pub use bodies::shrink;
pub use laws::{one_is_shrunk, short_ones_stay, valid_choices_join};

//! No type and no member stands twice (I15; II.22.15, II.22.26, II.22.37): types by their paths; fields, methods and properties of a type
//! by name and signature; its events by name.
#![tactic(auto)]

mod distinct;
mod kinds;
mod likeness;
mod owners;
mod signatures;
mod types;

pub use distinct::DistinctMembers;

//! The first fault of a source that has a derivation, of all rules on what it declares and names (ECMA-335 II.5 to II.19).
#![tactic(auto)]

mod all_declared;
pub mod census;
mod declared_names;
mod declared_twice;
pub mod faults;
mod not_declared;
mod out_of_bounds;
mod passes;

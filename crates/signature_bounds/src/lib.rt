//! What is asked of the signatures of rows (I14), by what is told of them without their terms (II.23.2): a definition by facts, and a
//! law that it is the demand.
#![tactic(auto)]

mod laws;

pub use laws::bounds_are_signatures;

//! Which branches of a body can be short at the same time (III.3): the instructions of a body by their lengths, and the
//! greatest choice of short branches in which each of them reaches its target.
#![tactic(auto)]

mod form;
mod reach;
mod shortest;

pub use form::Form;
pub use shortest::shorten;

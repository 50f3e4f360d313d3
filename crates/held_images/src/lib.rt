//! What is read of an image is such as a tree in memory holds (ECMA-335 II.22): a law, as the contract of a function.
#![tactic(auto)]

mod laws;

pub use laws::what_is_read_is_held;

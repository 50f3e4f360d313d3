//! What an image reads as is a well-formed assembly (ECMA-335 II.22): a law, as the contract of a function.
#![tactic(auto)]

mod laws;
mod ranges;

pub use laws::what_is_read_is_formed;
pub use ranges::bytes_in_range;

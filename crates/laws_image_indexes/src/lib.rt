//! The rows of an image that is filled lead to what is there: laws, for the proofs of crates above (ECMA-335 II.22, II.24.2.6).
#![tactic(auto)]

mod laws;

pub use laws::{indexes_are_there, owned_indexes, plain_indexes};

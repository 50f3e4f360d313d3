//! That the tokens of an image name something, told by maps (ECMA-335 II.22, III.1.9): laws, as contracts of functions.
#![tactic(auto)]

mod laws;

pub use laws::{a_naming_exists, bodies_hang_on_tokens, signatures_hang_on_tokens};

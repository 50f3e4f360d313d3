//! All that the tokens of an image name, kept for the rows that are declared, in use or named by a body (ECMA-335 II.22, III.1.9).
#![tactic(auto)]

mod names;

pub use names::keep_names;

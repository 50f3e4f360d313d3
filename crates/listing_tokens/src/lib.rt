//! The text of a listing lexes into the leaves of its canonical source (ECMA-335 II.5): laws.
#![tactic(auto)]

pub mod laws;

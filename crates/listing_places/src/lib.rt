//! A listing declares the types of its tree by their paths, with their layouts (ECMA-335 II.10, II.10.7): laws.
#![tactic(auto)]

pub mod laws;

//! The types of a tree by their paths, each before those that it nests (ECMA-335 II.10, II.22.32): laws.
#![tactic(auto)]

pub mod laws;

//! The types of a listing are read back, each with those that it nests (ECMA-335 II.10, II.22.32): laws.
#![tactic(auto)]

pub mod laws;

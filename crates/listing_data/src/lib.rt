//! The data of a listing are read back (ECMA-335 II.16.3): laws.
#![tactic(auto)]

pub mod laws;

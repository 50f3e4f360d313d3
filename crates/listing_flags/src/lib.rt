//! The rows of flags of a listing are read back (ECMA-335 II.23.1): laws.
#![tactic(auto)]

pub mod laws;

//! Bodies of methods in a listing are read back (ECMA-335 II.15.4.1, II.19, III.1.7): laws.
#![tactic(auto)]

pub mod laws;

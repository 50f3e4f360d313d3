//! Methods in a listing are read back (ECMA-335 II.15, II.22.26, II.22.33): laws.
#![tactic(auto)]

pub mod laws;

//! Well-formed terms in a listing are read back (ECMA-335 II.7.1, II.14.2, II.15.3, II.15.4): laws.
#![tactic(auto)]

pub mod laws;

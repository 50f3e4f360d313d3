//! Strings, constants and attributes in a listing are read back (ECMA-335 II.16.2, II.21, II.22.9, II.22.10): laws.
#![tactic(auto)]

pub mod laws;

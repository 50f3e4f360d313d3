//! Names of types, types and owners in a listing are read back (ECMA-335 II.5.3, II.7.1, II.14.2): laws.
#![tactic(auto)]

pub mod laws;

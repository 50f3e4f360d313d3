//! Fields, generic parameters, properties and events in a listing are read back (ECMA-335 II.10.1.7, II.16, II.17, II.18): laws.
#![tactic(auto)]

pub mod laws;

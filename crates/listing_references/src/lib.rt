//! References to members in a listing are read back (ECMA-335 II.10.5, II.15.3, II.15.4): laws.
#![tactic(auto)]

pub mod laws;

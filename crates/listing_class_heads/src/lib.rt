//! Heads of types in a listing are read back: names, flags, bases and interfaces (ECMA-335 II.10.1, II.10.2): laws.
#![tactic(auto)]

pub mod laws;

//! Heads of methods in a listing are read back: names, flags and signatures (ECMA-335 II.15.3, II.15.4, II.22.26): laws.
#![tactic(auto)]

pub mod laws;

//! A listing knows the assemblies that it names by their keys (ECMA-335 II.6.3): laws.
#![tactic(auto)]

pub mod laws;

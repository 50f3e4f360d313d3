//! The manifest of a listing, and the assemblies that it names, are read back (ECMA-335 II.6.2, II.6.3, II.25.2.3): laws.
#![tactic(auto)]

pub mod laws;

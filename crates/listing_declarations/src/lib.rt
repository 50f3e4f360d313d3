//! The declarations of a listing, one after another, and the manifest that they give are read back (ECMA-335 II.5.10, II.6): laws.
#![tactic(auto)]

pub mod laws;

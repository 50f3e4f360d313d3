//! What stands in the braces of a type of a listing is read back: its layout, its attributes and its members (ECMA-335 II.10.2): laws.
#![tactic(auto)]

pub mod laws;

//! Members that differ in the tree aren't declared twice in the source (ECMA-335 II.22.13, II.22.15, II.22.26, II.22.34): laws.
#![tactic(auto)]

pub mod laws;

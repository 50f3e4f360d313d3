//! What is well formed can be written: laws, each as the contract of a function (ECMA-335 II.22, II.23.2).
#![tactic(auto)]

pub mod laws;
pub mod ranges;

//! What is written of an assembly takes at most as many bytes as the assembly weighs: laws, each as the contract of a function
//! (ECMA-335 II.24.2.6).
#![tactic(auto)]

pub mod laws;

//! The assembly that a source denotes which breaks no rule is well formed (ECMA-335 II.22): a law, as the contract of a function.
#![tactic(auto)]

mod bodies_laws;
mod contents_laws;
pub mod laws;
mod members_laws;
mod sources_laws;

//! The tokens in the bodies of methods (I20): whether each names what its instruction wants (ECMA-335 III.1.9, II.25.4.6).
#![tactic(auto)]

mod checks;
mod search;
mod whole;

pub use search::first_unknown;

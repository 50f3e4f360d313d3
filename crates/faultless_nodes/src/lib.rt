//! A source breaks no rule where none of its productions does, and it breaks none as a whole (ECMA-335 II.5 to II.19): laws.
#![tactic(auto)]

pub mod laws;

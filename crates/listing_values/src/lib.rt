//! What the spellings of a listing are read as (ECMA-335 II.5.2, II.5.3): laws.
#![tactic(auto)]

pub mod laws;

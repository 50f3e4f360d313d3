//! How a listing spells names, numbers, texts and bytes (ECMA-335 II.5.2, II.5.3): definitions, and laws that each such spelling is
//! a token of its kind.
#![tactic(auto)]

pub mod laws;

//! Pieces of a canonical source are derived from their nonterminals (ECMA-335 II.5): laws.
#![tactic(auto)]

pub mod laws;

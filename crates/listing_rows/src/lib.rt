//! How rows of a listing are cut into segments, and how types, owners, items and clauses are found in its pieces (ECMA-335 II.5): laws.
#![tactic(auto)]

pub mod laws;

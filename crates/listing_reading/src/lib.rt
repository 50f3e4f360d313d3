//! How the forest of a piece of a listing is read (ECMA-335 II.5): definitions, and laws that hold of any piece.
#![tactic(auto)]

pub mod laws;

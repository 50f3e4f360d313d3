//! What is told of plain names by their numbers: the hash of a name is its number, so that types that name different types have
//! different hashes where names alone tell them apart (II.22.37, II.22.38).
#![tactic(auto)]

mod told;

pub use told::NumberedNames;

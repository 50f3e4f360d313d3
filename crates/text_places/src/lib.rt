//! Where in a heap of strings a text stands, for every byte of the heap (II.24.2.3).
#![tactic(auto)]

mod places;
mod sweep;

pub use places::TextPlaces;

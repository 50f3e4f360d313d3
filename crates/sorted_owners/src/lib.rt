//! Owners in their order: the same owners, strictly rising (ECMA-335 II.22.23).
#![tactic(auto)]

mod sorting;

pub use sorting::rising;

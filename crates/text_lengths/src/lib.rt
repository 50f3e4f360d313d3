//! How long the text is that stands at an index of a heap of strings, for every byte of the heap (II.24.2.3).
#![tactic(auto)]

mod lengths;

pub use lengths::TextLengths;

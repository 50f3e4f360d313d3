//! What `ildasm` makes and says of an image (ECMA-335 II.5, II.22).
#![tactic(auto)]

mod listing;

pub use listing::listed;

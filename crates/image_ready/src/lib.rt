//! Where no demand on an image fails and what its rows and bodies name is kept, its parts can be read, and what is
//! read is so (ECMA-335 II.22): laws, as contracts of functions.
#![tactic(auto)]

mod laws;

pub use laws::{an_image_is_ready, what_is_read_is_so};

//! Where no demand on an image fails, there is an assembly that it reads as; so an image reads as one
//! assembly or has one first fault (ECMA-335 II.22): laws, as contracts of functions.
#![tactic(auto)]

mod laws;

pub use laws::{an_assembly_exists, an_image_has_one_outcome};

//! The custom attributes and the generic parameters of an image's rows, as parts of a tree (ECMA-335 II.22.10, II.22.20, II.22.21).
#![tactic(auto)]

mod attribute_rows;
mod generic_rows;

pub use attribute_rows::attributes;
pub use generic_rows::generics;

//! Types of an image, as parts of a tree, but for the types that they nest (ECMA-335 II.22.37).
#![tactic(auto)]

mod interface_rows;
mod maps;
mod members;
mod types;

pub use maps::{Maps, first_maps};
pub use members::{type_fields, type_methods};
pub use types::type_with;

//! The assembly that an image reads as, where it meets all demands and what its rows and bodies name is kept (ECMA-335 II.22).
#![tactic(auto)]

mod assembly;
mod extern_rows;
mod lists;
mod manifest_row;
mod nesting;
mod versions;

pub use assembly::read_tree;

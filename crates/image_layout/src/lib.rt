//! An image laid out: the streams of its metadata from heaps and rows, and the frame of the file round metadata and code (ECMA-335
//! II.24.2, II.25).
#![tactic(auto)]

mod laws;
mod layout;
mod reference_rows;

pub use laws::{heaps_are_read, tables_are_read};
pub use layout::lay_out;
pub use reference_rows::push_references;

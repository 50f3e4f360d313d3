//! Parts of a tree that are read of rows (ECMA-335 II.22): a list of them of rows that stand side by side, the one of one row at most,
//! the text, the blob and the number of a cell, and several parts together or want of memory.
#![tactic(auto)]

mod cells;
mod owned;
mod part;
mod runs;
mod together;

pub use cells::{blob_at, blob_of, bytes_at, number_of, text_of};
pub use owned::{read_given, read_owned};
pub use part::{Part, read_all};
pub use runs::run_rows;
pub use together::{five, four, pair, seven, three};

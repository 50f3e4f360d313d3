//! The tables of ECMA-335's metadata, as they stand in the stream `#~` (II.24.2.6): rows are encoded into
//! a stream, and the cells of a stream are read where they lie. Tables are named by their numbers of
//! II.22, rows are counted from 1 and columns from 0.
#![tactic(auto)]

mod coded;
mod encoding;
mod fault;
mod header;
mod index;
mod laws;
mod layout;
mod number;
mod order;
mod rows;
mod schema;
mod table_rows;
mod view;

pub use coded::{Coded, pack_coded, unpack_coded};
pub use encoding::encode;
pub use fault::TableFault;
pub use laws::{indexes_fit, longer_stream, one_fault, row_of_columns};
pub use order::sort_columns;
pub use rows::Rows;
pub use schema::{Column, PROFILE, TABLES, columns};
pub use view::TableView;

//! Rows that are found again by a hash, and the first row of a table that is like an earlier one, by one look at each row.
#![tactic(auto)]

mod hashed;
mod twins;

pub use hashed::{Hashed, HashedRows, RowTest};
pub use twins::{Likeness, first_twin};

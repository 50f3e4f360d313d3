//! Numbers for the rows of InterfaceImpl (ECMA-335 II.22.23): two have one number exactly where they name one type. Rows that name
//! one row of another table, or rows of TypeSpec with one signature, are put together first; of each such group one row is looked at,
//! and compared with those that have its hash.
#![tactic(auto)]

mod alike;
mod numbers;
mod places;
mod rows;

pub use numbers::number_interfaces;

//! Numbers for the rows of a table: two rows have one number exactly where they are alike, by one look at each row.
#![tactic(auto)]

mod numbers;

pub use numbers::number_twins;

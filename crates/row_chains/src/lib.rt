//! Rows that are found by their owner where no order helps: a chain for each owner leads through its rows in their order.
#![tactic(auto)]

mod chains;

pub use chains::Chains;

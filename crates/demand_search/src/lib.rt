//! The search for the first row of an image's tables that doesn't meet a demand.
#![tactic(auto)]

mod demand;
mod search;

pub use demand::{Demand, TABLES};
pub use search::first_bad;

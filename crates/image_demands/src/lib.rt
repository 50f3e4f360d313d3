//! The demands on the rows of an opened image, in their order: the first that it fails (I8 to I23; II.22, II.23.2, II.25.4).
#![tactic(auto)]

mod bodies;
mod chain;
mod members;
mod places;
mod survey;
mod values;

pub use chain::{first_unmet_demand, first_unmet_named};
pub use survey::Survey;

//! Properties and events of an image's types, with their accessors, as parts of a tree (ECMA-335 II.22.13, II.22.28, II.22.34).
#![tactic(auto)]

mod accessor_rows;
mod event_rows;
mod property_rows;

pub use event_rows::events;
pub use property_rows::properties;

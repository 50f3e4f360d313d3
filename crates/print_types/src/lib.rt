//! Types as a listing spells them, each with its members and the types that it nests, and the data of fields (ECMA-335 II.10, II.16.3).
#![tactic(auto)]

mod classes;
mod data;
mod heads;
mod members;

pub use classes::{enter, write_classes};
pub use data::{write_class_data, write_field_data};

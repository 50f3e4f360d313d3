//! How many bytes a value of a field's type has in data (II.16.3), and the part of the demand on values (I16) that fields are asked: their
//! constants, offsets and data (II.22.9, II.22.16, II.22.18).
#![tactic(auto)]

mod fields;
mod named_types;
mod sizes;

pub use fields::field_has_values;
pub use sizes::data_size;

//! Fields and params of an image's rows, as parts of a tree, with their constants, offsets and data (ECMA-335 II.22.9, II.22.15,
//! II.22.16, II.22.18, II.22.33).
#![tactic(auto)]

mod constant_rows;
mod field_contents;
mod field_offsets;
mod field_rows;
mod param_rows;

pub use constant_rows::constant;
pub use field_rows::{fields, without};
pub use param_rows::params;

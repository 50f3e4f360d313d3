//! Whether the assembly that an image reads as weighs at most 2^26, decided from rows before any tree is built (ECMA-335 II.22).
#![tactic(auto)]

mod accessor_rows;
mod attribute_rows;
mod constant_rows;
mod field_rows;
mod generic_rows;
mod heap_lengths;
mod interface_rows;
mod light;
mod manifest_row;
mod member_runs;
mod method_rows;
mod names;
mod override_rows;
mod param_rows;
mod property_rows;
mod rows;
mod source;
mod type_rows;

pub use light::is_light;
pub use source::WeightSource;

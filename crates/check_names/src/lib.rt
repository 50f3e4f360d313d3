//! The rules that a source's declarations, names and numbers must meet (ECMA-335 II.5.8, II.10, II.15, II.23.2), each with
//! the least token at which it is broken, and the first of each class of rules from the least tokens of its rules.
#![tactic(auto)]

mod array_numbers;
mod asked;
pub mod barred;
pub mod class_rules;
pub mod class_sizes;
mod data_lengths;
mod data_numbers;
pub mod extern_rules;
pub mod firsts;
pub mod mapped_data;
pub mod merging;
pub mod named_types;
pub mod nestings;
mod number_rules;
pub mod out_of_range;
mod param_numbers;
pub mod parts;
pub mod roots;
pub mod stated_sizes;
pub mod type_depths;
pub mod undeclared;
mod written;

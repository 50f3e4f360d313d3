//! Members of a class that are declared twice, and accessors that it doesn't have (ECMA-335 II.10.2, II.17, II.18, II.22.28).
#![tactic(auto)]

pub mod accessor_rules;
pub mod broken_signatures;
mod class_accessors;
mod lone_members;
pub mod member_kinds;
mod member_reading;
pub mod member_rules;
mod member_sets;
mod own_methods;
mod reference_reading;
mod same_members;
mod unbroken;

//! Fields and the data that they are mapped to: those with more bytes than their data, and those whose types have no stated
//! size (ECMA-335 II.16.3).
#![tactic(auto)]

pub mod declared_sizes;
pub mod mapped_fields;
mod type_sizes;

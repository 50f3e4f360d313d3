//! The tables and the code of an image, filled with all that an assembly has (ECMA-335 II.22, II.25.4).
#![tactic(auto)]

pub mod field_part;
pub mod filling;
pub mod manifest_part;
pub mod method_part;
pub mod owned_part;
pub mod property_part;
pub mod type_part;

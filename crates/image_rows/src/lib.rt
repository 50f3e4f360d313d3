//! The rows of the tables of an image, its bodies and its data, from an assembly as a tree (ECMA-335 II.22 to
//! II.25).
#![tactic(auto)]

pub mod accessor_lists;
pub mod attribute_rows;
pub mod bound_rows;
pub mod class_rows;
pub mod entry;
pub mod event_rows;
pub mod field_rows;
pub mod generic_order;
pub mod interface_rows;
pub mod laws;
pub mod longest;
pub mod manifest_rows;
pub mod map_rows;
pub mod method_rows;
pub mod override_rows;
pub mod owned_lists;
pub mod param_rows;
pub mod property_rows;
pub mod semantics_rows;
pub mod type_rows;

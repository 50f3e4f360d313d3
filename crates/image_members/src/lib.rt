//! What the types of an assembly declare, in the order of their rows, with the numbers of these rows; the rows of constants and of
//! generic parameters; and where bodies and data stand in an image (ECMA-335 II.22.9, II.22.20, II.23.2, II.25.4).
#![tactic(auto)]

pub mod bodies;
pub mod carrying;
pub mod classes;
pub mod constant_rows;
pub mod constants;
pub mod data_rows;
pub mod declared_members;
pub mod declaring;
pub mod emptiness;
pub mod generic_rows;
pub mod loading;
pub mod order;
pub mod places;
pub mod placing;
pub mod type_indexes;

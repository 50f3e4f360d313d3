//! The demand on values (I16), decided for each row: constants, generic parameters, layouts, offsets, data, params, accessors' kinds,
//! overrides and arguments (II.22).
#![tactic(auto)]

mod values;

pub use values::Values;

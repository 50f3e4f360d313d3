//! The methods of a source (ECMA-335 II.10.3, II.15, II.22.26), read as `source_model` defines them: each with its signature, its
//! generic parameters and parameters, the methods that it overrides, its body and its attributes. Each is proved for methods none
//! of whose numbers is out of its range.
#![tactic(auto)]

pub mod laws;
pub mod method_lists;
mod method_rows;
mod whole_methods;

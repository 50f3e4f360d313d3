//! Whether two signatures spell one term, told from their bytes (ECMA-335 II.23.2): a walk along both, which takes no memory.
//! Tokens may differ, and numbers may be spelled longer.
#![tactic(auto)]

mod numbering;
mod numbers;
mod pair;
mod same;
mod signatures;
mod types;

pub use numbering::Numbering;
pub use same::{
    same_field, same_instantiation, same_locals, same_method, same_property, same_type,
};

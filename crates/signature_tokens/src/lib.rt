//! The tokens that a signature names (ECMA-335 II.23.2), in the order of their spelling: those of the types in it, where it is
//! spelled whole, whatever its tokens name.
#![tactic(auto)]

mod each_named;
mod stop;
mod tokens;
mod types;
mod walks;

pub use tokens::{
    field_tokens, instantiation_tokens, locals_tokens, method_tokens, property_tokens, type_tokens,
};

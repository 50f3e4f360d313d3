//! Methods of an image's types, as parts of a tree, with what they override (ECMA-335 II.22.26, II.22.27).
#![tactic(auto)]

mod method_rows;
mod override_rows;

pub use method_rows::methods;
pub use override_rows::overriders;

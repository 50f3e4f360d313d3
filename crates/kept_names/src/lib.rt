//! What the tokens of an image name, kept for the rows that are in use: types, methods, fields, locals and user strings, each found
//! by its token in constant time (ECMA-335 II.22, III.1.9).
#![tactic(auto)]

mod kept;
mod names;

pub use kept::Kept;
pub use names::{KeptNames, row_key};

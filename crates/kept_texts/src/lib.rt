//! The types of locals and the user strings that tokens of an image name (ECMA-335 II.22.36, II.24.2.4), kept for each row of
//! StandAloneSig that is in use and for each user string that a body loads.
#![tactic(auto)]

mod locals;
mod operands;
mod user_strings;

pub use locals::keep_locals;
pub use user_strings::keep_texts;

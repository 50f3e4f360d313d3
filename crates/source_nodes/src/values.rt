//! The texts, numbers and bytes that tokens spell (ECMA-335 II.5.2, II.5.3, II.16.2).

pub mod byte_lists;
mod bytes;
mod escapes;
mod gaps;
pub mod integers;
mod names;
mod quotes;
pub mod spellings;
pub mod texts;
pub mod type_names;

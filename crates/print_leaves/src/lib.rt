//! What a listing is written on, and its tokens: words, names, numbers, strings and bytes, each behind the blanks or the line's end
//! that stand before it (ECMA-335 II.5.2).
#![tactic(auto)]

mod blanks;
mod bytes;
mod laws;
mod names;
mod numbers;
mod paper;
mod quotes;

pub use laws::drawn_is_text;
pub use paper::Paper;

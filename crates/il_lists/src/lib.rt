//! Lists, boxes and texts that contracts see as what they hold, so that a tree made of them is plain
//! data in a clause, and copies that equal what they copy.
#![tactic(auto)]

mod boxed;
mod copies;
mod items;
mod memory;
mod short_text;
mod text;
mod together;

pub use boxed::Boxed;
pub use copies::Copies;
pub use items::Items;
pub use memory::NoMemory;
pub use text::Text;
pub use together::{five, four, seven, six, three, two};

/// A list of bytes.
pub type Bytes = Items<u8>;

/// A list of UTF-16 code units.
pub type Units = Items<u16>;

/// A list of unsigned numbers.
pub type Numbers = Items<u32>;

/// A list of signed numbers.
pub type Signed = Items<i32>;

/// A list of texts.
pub type Words = Items<Text>;

//! The frame of a PE32 image with CLI contents (ECMA-335 II.25): its headers, sections and file map.
//! `write` lays out code and metadata in an image; `open` reads any bytes and refuses what is none.
#![tactic(auto)]

mod contents;
mod fault;
mod field;
mod frame;
mod layout;
mod parts;
mod profile;
mod section;
mod view;
mod writer;

pub use fault::PeFault;
pub use parts::{Kind, ManifestNumbers, Parts};
pub use view::{PeView, open};
pub use writer::{code_rva, write};

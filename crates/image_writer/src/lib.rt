//! The writer of images: from an assembly as a tree to a PE32 image that is made of it (ECMA-335 II.22 to II.25).
#![tactic(auto)]

mod beginning;
mod contents;
mod fault;
mod finishing;
mod laying_out;
mod writing;

pub use fault::WriteFault;
pub use writing::write;

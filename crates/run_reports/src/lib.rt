//! What `peverify` says of an image: the rules that its bodies break (ECMA-335 III.1.8), the first demand that it or an assembly that it
//! refers to fails (II.22), or a type that is its own ancestor.
#![tactic(auto)]

mod checking;
mod images;
mod lines;
mod reporting;

pub use reporting::reported;

//! Assemblies as lines of text. Each part of the tree is shown, and nothing where there is nothing. Flags, bits and bytes are in
//! hexadecimal.

mod bodies;
mod classes;
mod items;
mod manifests;
mod members;
mod terms;

pub use classes::push_contents;
pub use manifests::push_manifest;

//! Numbers for names that are told in a heap of strings (II.24.2.3): each node of a forest has a name, which is that of the node
//! that encloses it and a space and a text of its own, and two nodes have one number exactly where they have one name.
#![tactic(auto)]

mod numbering;
mod table;
mod texts;

pub use numbering::{Named, Node, numbered};
pub use texts::TextHashes;

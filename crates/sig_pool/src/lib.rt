//! A pool that keeps each type of a signature once: a node for each distinct type, whose children are the
//! ids of nodes before it, so that equal types have equal ids and shared parts are shared.
#![tactic(auto)]

mod id;
mod keys;
mod node;
mod pool;
mod shape;
mod substitution;

pub use id::{SigId, SigIds};
pub use node::{Node, NodeOwner};
pub use pool::SigPool;

//! What is told of a signature without building its term (ECMA-335 II.23.2): its depth, its nodes, the largest rank in it, its
//! weight, how many types it has, and a hash. A scan goes once over the bytes and takes no memory.
#![tactic(auto)]

mod facts;
mod first_bytes;
mod laws;
mod names;
mod numbers;
mod owners;
mod scan;
mod signatures;
mod types;

pub use facts::{Facts, ListFacts, MethodFacts, OwnerFacts};
pub use first_bytes::{counts_at, is_at_sentinel, is_generic, property_count_at};
pub use laws::facts_are_sizes;
pub use numbers::shape_at;
pub use owners::Owners;
pub use scan::{
    scan_field, scan_instantiation, scan_locals, scan_method, scan_property, scan_type,
};

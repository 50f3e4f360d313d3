//! What the listing of an assembly says: the assembly, which it denotes, since none of its declarations breaks a rule (ECMA-335 II.5.10):
//! laws.
#![tactic(auto)]

pub mod accessors;
pub mod bodies;
pub mod classes;
pub mod denoting;
pub mod entries;
pub mod faults;
pub mod generics;
pub mod manifests;
pub mod members;
pub mod methods;
pub mod quiet;
pub mod references;
pub mod terms;
pub mod values;
pub mod whole;

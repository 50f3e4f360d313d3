//! The assembly that a source denotes (ECMA-335 II.5 to II.19, II.21): its classes, each with its base, its interfaces, its members
//! and the classes that it nests, and the assembly as a whole.
#![tactic(auto)]

mod assemblies;
mod bases;
mod class_heads;
mod class_members;
mod classes;
mod cores;
mod elaborating;
mod extern_keys;
mod faultless_sources;
mod gathering;
mod known_sizes;
mod member_reader;
mod name_fault;
mod source_members;
mod standing;

pub use elaborating::{elaborate, elaborate_spans};
pub use name_fault::NameFault;
pub use source_model::NameClass;

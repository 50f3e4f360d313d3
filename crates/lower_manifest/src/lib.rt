//! The parts of a source's assembly that aren't members or bodies (ECMA-335 II.5 to II.7, II.21, II.22): strings; the manifest,
//! and the assemblies that a source names; attributes, and to what they belong; the methods that a method overrides; offsets of
//! fields; the bound on the stack; numbers in the widths of what holds them. Each is proved for a source none of whose numbers is out
//! of its range.
#![tactic(auto)]

pub mod attributes;
pub mod bounds;
pub mod chosen;
pub mod externs;
pub mod field_places;
mod keys;
pub mod laws;
pub mod manifests;
mod names;
pub mod overrides;
pub mod runs;
mod settings;
pub mod texts;
pub mod wrapping;

//! The assembly, its module, and the assemblies that it names, as a listing spells them (ECMA-335 II.6, II.22.2, II.22.5, II.25.2.3).
#![tactic(auto)]

mod externs;
mod keys;
mod manifests;

pub use externs::write_externs;
pub use manifests::write_manifest;

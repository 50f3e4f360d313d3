//! What stands in a source, read from its derivation as `source_model` defines it (ECMA-335 II.5 to II.7, II.9, II.14, II.15,
//! II.23.2): names that stand twice; classes by their paths; types with their owners; signatures, references and the types of
//! locals; the labels of methods. The rules that a source must meet and the assembly that it denotes stand above.
#![tactic(auto)]

pub mod bases;
pub mod class_paths;
pub mod declared;
mod field_references;
pub mod label_numbers;
pub mod labels;
pub mod methods;
pub mod name_lists;
mod owners;
pub mod place;
pub mod references;
mod signatures;
mod suffixes;
mod types;
pub mod unbroken;

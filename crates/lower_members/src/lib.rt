//! The members of a source's assembly, read as `source_model` defines them (ECMA-335 II.10, II.15 to II.18, II.22): constants, data,
//! fields, generic parameters and parameters; properties and events with their accessors. Each is proved for a source none of
//! whose numbers is out of its range.
#![tactic(auto)]

mod accessors;
pub mod class_sizes;
mod constants;
mod contents;
mod data_items;
pub mod events;
pub mod fields;
pub mod generics;
mod item_customs;
pub mod item_walks;
pub mod labelled_data;
pub mod layouts;
mod line_attributes;
pub mod method_tables;
mod next_pieces;
mod numbered_lines;
pub mod params;
pub mod properties;
mod runs;
mod type_sizes;
mod units;

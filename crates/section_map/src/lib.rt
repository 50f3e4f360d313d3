//! What the file of an image holds at relative virtual addresses (ECMA-335 II.25): a map of which section is the first that holds an
//! address, made once, so that no look-up walks through all sections, of which an image may have 65,535.
#![tactic(auto)]

mod map;
mod merged;
mod number;
mod sections;
mod step;

pub use map::SectionMap;

//! Methods as a listing spells them: heads, parameters, and what stands in their braces (ECMA-335 II.15, II.22.26, II.22.33).
#![tactic(auto)]

mod heads;
mod items;
mod methods;
mod params;
mod rows;

pub use methods::{write_method, write_methods};

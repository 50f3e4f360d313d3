//! What the tokens and the nodes of a source's derivation say by themselves, as `source_model` defines it (ECMA-335 II.5 to II.7, II.9,
//! II.23.2): the values of tokens; productions found among the nodes of a derivation, whose bodies stand below them; names found by
//! their hash; dimensions and bounds; the operations of lines of code.
#![tactic(auto)]

pub mod bounds;
pub mod chained_names;
pub mod derived;
pub mod equality;
pub mod hashes;
pub mod least;
pub mod narrowing;
pub mod operations;
pub mod pieces;
pub mod reader;
pub mod shapes;
pub mod values;
pub mod walk;
pub mod word_ops;

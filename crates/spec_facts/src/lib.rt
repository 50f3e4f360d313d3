//! The facts of TypeSpec rows (II.22.39), used or not: of each distinct blob once, in rounds, since a type may name another row by a
//! modifier. A row whose signature leads back to itself has none.
#![tactic(auto)]

mod distinct;
mod known;
mod rounds;
mod spec_table;

pub use spec_table::{SpecFacts, WithSpecs, facts_of_specs};

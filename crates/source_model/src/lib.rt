//! What a source denotes, as definitions apart from any code: the assembly that each source stands for, and the first
//! fault of one that stands for none (II.5 to II.19, II.21).
#![tactic(auto)]

mod fault;
mod laws;
mod order;

pub use fault::NameClass;
pub use laws::{
    derivations_are_forests, forests_join, forests_open, one_meaning, sources_have_a_meaning,
    the_first_is_least,
};
pub use order::tokens_stand_in_order;

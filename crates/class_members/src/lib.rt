//! What the methods of types offer to fill, and what slots of interfaces ask for, as lists of numbers that are found by hash
//! (ECMA-335 II.10.3.2, II.12.2).
#![tactic(auto)]

mod facts;
mod keys;
mod laws;
mod object;
mod offering;
mod wanting;

pub use facts::Facts;
pub use laws::{filled_is_offered, held_is_found};
pub use object::add_object_offers;
pub use offering::{add_offers, add_overrides};
pub use wanting::{Wanted, is_offered, wants_of};

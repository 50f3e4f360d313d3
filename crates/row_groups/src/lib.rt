//! Which rows of an image's tables belong to a row of another table (II.22): rows of a table in order by their owner stand side by
//! side, and a member of a run has one owner, both found by halving; and which type encloses a type.
#![tactic(auto)]

mod outers;
mod owned;
mod owners;

pub use outers::Outers;
pub use owned::{Rows, owned_rows};
pub use owners::{Owners, has_member, owner_of};

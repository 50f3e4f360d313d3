//! Which rows of MemberRef, StandAloneSig, TypeSpec and MethodSpec are used (II.22.25, II.22.36, II.22.39, II.22.29): those that a row of a
//! table of no references, a used row of one, a signature of either or a good body names. Each row, and each signature of a table, is
//! looked at once.
#![tactic(auto)]

mod bodies;
mod cells;
mod passes;
mod rows;
mod spread;
mod used;

pub use used::{Used, used_rows};

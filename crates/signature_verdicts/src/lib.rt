//! What is asked of a signature by itself (I14): that it is spelled whole, by the kind that its column wants, with its numbers in bounds
//! (II.23.2). The verdict on a blob is given once for each kind.
#![tactic(auto)]

mod bounds;
mod judge;
mod judgements;
mod kind;

pub use judgements::Judgements;
pub use kind::{Kind, Verdict};

//! The outline of a method's body (ECMA-335 II.25.4): what its bytes say before any token has a name, which tokens it names as
//! what, and how many parts it has.
#![tactic(auto)]

mod counts;
mod forms;
mod laws;
mod outlined;
mod reading;
mod uses;

pub use laws::{outlines_are_bodies, outlines_name_tokens, what_is_read_is_formed};
pub use outlined::{BodyOutline, TokenUse, TokenUses};
pub use reading::outline;

//! The tokens in the signature of a row (II.22, II.23.2): those in the blob that its signature column leads to, where this is spelled whole
//! as the table wants it.
#![tactic(auto)]

mod laws;
mod signed;

pub use laws::signatures_are_in_blobs;
pub use signed::{signature_column, tokens_at};

//! An image opened: its headers, its metadata root and its streams are looked at, and each is lent (II.24.2, II.25).
#![tactic(auto)]

mod cli;
mod named;
mod number;
mod opened;
mod root;
mod streams;

pub use opened::{Image, Unmet, open};

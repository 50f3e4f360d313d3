//! The demand on attributes (I21; II.22.10): each belongs to what may have attributes, and its type is a method.
#![tactic(auto)]

mod attributes;
mod constructors;

pub use attributes::Attributes;

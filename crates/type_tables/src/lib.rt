//! The tables of a world, made of an assembly and those that it refers to: what their scopes mean, which names are value types,
//! and what is declared; and the first type that is its own ancestor (ECMA-335 I.8.7, I.9.5, II.10.3).
#![tactic(auto)]

pub mod cyclic;
pub mod declaring;
pub mod entries;
pub mod filling;
pub mod marked;
pub mod members;
pub mod naming;
pub mod places;
pub mod ranks;
pub mod reach;
pub mod scopes;
pub mod stepping;
pub mod texts;
pub mod value_names;

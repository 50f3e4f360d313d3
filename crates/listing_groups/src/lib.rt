//! Fields, methods, properties and events of a listing, one after another, are read back: laws.
#![tactic(auto)]

pub mod laws;

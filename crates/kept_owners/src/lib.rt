//! The types that rows of TypeDef, TypeRef and TypeSpec name (II.22.37, II.22.38, II.22.39), each kept by its table and row: plain names
//! by climbing along what encloses a type or along the scopes of a reference, the terms of TypeSpec rows in use in rounds, since a
//! signature may name another such row by a modifier.
#![tactic(auto)]

mod climb;
mod names;
mod owners;
mod plain;
mod put;
mod rounds;
mod terms;

pub use owners::keep_owners;

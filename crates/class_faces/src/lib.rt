//! The classes of an assembly, their declarations, and the interfaces that types have above them (ECMA-335 II.10.1, II.12.2).
#![tactic(auto)]

mod closure;
mod declaring;
mod faces;
mod queue;
mod rows;

pub use declaring::{declaration, own_key};
pub use faces::{Faces, is_face, more_faces};
pub use rows::classes;

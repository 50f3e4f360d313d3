//! What an instruction may ask of the evaluation stack and leave there, as a row (ECMA-335 III.1.5, III.1.8): the kinds of types
//! and of values, how a row is made, and the rows of instructions with a primitive type in their name and of those that name a
//! type.
#![tactic(auto)]

pub mod frame;
pub mod kinds;
pub mod making;
pub mod naming;
pub mod primitive_rows;
pub mod row;
pub mod type_kinds;
pub mod type_rows;

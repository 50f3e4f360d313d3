//! What a world says of types: normal forms, the names of primitive and value types, the parent of each type by tables of what is
//! declared, and types on the stack (ECMA-335 I.8.7, II.10.3, III.1.8). `type_tables` makes the tables.
#![tactic(auto)]

pub mod core_types;
pub mod kept;
pub mod meanings;
pub mod names;
pub mod normal;
pub mod parents;
pub mod stack_type;
pub mod tables;
pub mod values;

//! The bodies of a source's methods (ECMA-335 II.15.4.1, II.19, II.25.4, III.1.7): operands and instructions, locals, exception
//! clauses, and the most values that the stack is to hold.
#![tactic(auto)]

pub mod bodies;
pub mod body_lines;
mod body_places;
mod clause_ranges;
mod clauses;
mod code_places;
mod code_pushes;
pub mod held;
mod held_parts;
mod instructions;
mod label_slots;
mod labels;
mod locals;
mod numbers;
mod operands;
mod reals;
mod strings;
mod variable_numbers;
mod variables;

//! The rules that the bodies of a source's methods must meet (ECMA-335 II.5.4, II.15.4.1, II.19, III.1.7.2), each with the least
//! token at which it is broken: labels and variables, branches and clauses.
#![tactic(auto)]

pub mod bodies;
pub mod body_numbers;
pub mod branch_rules;
mod clause_counts;
mod clause_ranges;
pub mod clause_rules;
mod code_labels;
mod code_lines;
mod code_places;
mod instruction_rules;
mod known_names;
mod label_faults;
pub mod label_rules;
mod method_walk;
mod operand_ranges;
pub mod short_branches;
mod short_code;
mod sizes;
pub mod variable_rules;
mod variables;

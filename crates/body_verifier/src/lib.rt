//! Which instructions of a method's body break the rules of verifiable code (ECMA-335 III.1.8).
//!
//! `check_method` answers the failures of one method: for each instruction that control reaches the first rule that it
//! breaks in the least typing of the body. Its parts: what each opcode does, blocks and level steps, the edges of a body,
//! the rows of instructions, the least typing by the instructions that wait, and the rules.
#![tactic(auto)]

mod checking;
mod code_breaks;
mod code_marks;
mod finding;
mod judging;
mod laws;
mod naming_rules;
mod report;
mod rows;
mod rule;
mod sizes;
mod solving;
mod stated;
mod verdicts;

pub use checking::check_method;
pub use finding::has_body;
pub use laws::{a_body_has_one_least_typing, instructions_are_monotone, paths_are_right};
pub use report::{Failure, Report};
pub use rule::rule_text;
pub use stack_states::worklist::Worklist;

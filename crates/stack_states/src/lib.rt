//! What is known of the evaluation stack before an instruction (ECMA-335 III.1.8.1.1): stacks that share their values, what two of
//! them merge to, what an instruction's row asks of its operands and the stack that it leaves, and the numbers of the instructions
//! that wait to be looked at.
#![tactic(auto)]

mod alike;
pub mod asking;
pub mod effect;
mod meeting;
mod operands;
mod pairs;
pub mod stack;
pub mod state;
pub mod worklist;

//! Bodies as a listing spells them: locals, labels, instructions and exception clauses (ECMA-335 II.15.4.1, II.19, III.1.7).
#![tactic(auto)]

mod bodies;
mod clauses;
mod instructions;
mod locals;
mod offsets;
mod operands;

pub use bodies::write_body;

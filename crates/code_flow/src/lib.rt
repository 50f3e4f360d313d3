//! How control moves in a method's body (ECMA-335 II.19, III.1.7, III.1.8): what each opcode does, protected blocks and
//! places, the edges of each instruction with those to handlers and out of blocks, prefixes, and the rules on code and
//! variables that ask no stack.
#![tactic(auto)]

pub mod blocks;
pub mod clauses;
pub mod code_rules;
pub mod flowing;
pub mod goings;
pub mod guarding;
pub mod leaving;
pub mod marks;
pub mod operation;
pub mod places;
pub mod prefixes;
pub mod variable_rules;

//! What calls, returns, and instructions on fields, arguments and locals ask of the evaluation stack and leave there, as rows
//! (ECMA-335 III.3, III.4), with the types that a method's body is checked against.
#![tactic(auto)]

pub mod calls;
pub mod fields;
pub mod framing;
pub mod variables;

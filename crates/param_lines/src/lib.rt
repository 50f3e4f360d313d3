//! Lines of `.param` by themselves: of which generic parameter a line of `.param type` speaks, and the numbers that such lines spell
//! (ECMA-335 II.10.1.7, II.15.4.1.4).
#![tactic(auto)]

pub mod capped;
pub mod typar_lines;

//! How a rule of sources is asked: of each production with what stands around it, and what number keeps within which limits
//! (ECMA-335 II.5.2, II.10, II.15).
#![tactic(auto)]

pub mod asking;
pub mod counts;
pub mod ranges;
pub mod repeats;

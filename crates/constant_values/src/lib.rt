//! The constant that an element type and a value are (ECMA-335 II.22.9, II.23.1.16).
#![tactic(auto)]

mod constant;
mod integers;
mod units;

pub use constant::constant_of;
pub use units::units_of;

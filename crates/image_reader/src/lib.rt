//! An image read: the assembly that it reads as, or the first of the demands I1 to I24 that it fails (II.22, II.24, II.25).
#![tactic(auto)]

mod fault;
mod reading;
mod whole;

pub use fault::ImageFault;
pub use reading::read;

//! From the bytes of a source to the assembly that it denotes, or to its first fault: through its tokens and its derivation
//! (ECMA-335 II.5).
#![tactic(auto)]

mod fault;
mod laws;
mod reading;

pub use fault::{ReadFault, SourceFault};
pub use laws::one_reading;
pub use reading::assembly_of;

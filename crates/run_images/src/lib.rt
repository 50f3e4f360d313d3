//! What a run says of an image that fails a demand, whatever the command (ECMA-335 II.22, II.24, II.25).
#![tactic(auto)]

mod laws;
mod texts;

pub use laws::faults_are_numbered;
pub use texts::image_fault_said;

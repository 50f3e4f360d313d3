//! What the rows and tokens in use of an image name is well formed in the assembly that the image reads as (ECMA-335 II.22,
//! II.23.2): a law, as the contract of a function.
#![tactic(auto)]

mod laws;

pub use laws::what_is_in_use_is_formed;

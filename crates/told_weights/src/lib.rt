//! What is told of the weights of what an image's rows name: types, methods, signatures and bodies; and of interfaces that came before
//! (ECMA-335 II.22).
#![tactic(auto)]

mod weights;

pub use weights::RowWeights;

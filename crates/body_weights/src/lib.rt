//! What the bodies of an image's methods weigh (ECMA-335 II.25.4), each found once for an RVA; and with them all that is told of the
//! weights of what the rows of the image name.
#![tactic(auto)]

mod bodies;
mod outlines;
mod tokens;
mod weights;

pub use weights::BodyWeights;

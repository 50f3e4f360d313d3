//! What the types and references of an image weigh by their names (II.22.37, II.22.38): for each name in the path 32 and its texts. Each
//! is found once, those with short paths first.
#![tactic(auto)]

mod levels;
mod parts;
mod tokens;
mod weights;

pub use weights::NameWeights;

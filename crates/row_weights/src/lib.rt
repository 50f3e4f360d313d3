//! What the rows of an image weigh by what they name (II.22): signatures, each distinct one once, the types that rows are, and references
//! to methods and fields.
#![tactic(auto)]

mod kind;
mod members;
mod methods;
mod owners;
mod signatures;
mod weigh;

pub use kind::Kind;
pub use members::Members;
pub use methods::MethodWeights;
pub use signatures::SignatureWeights;

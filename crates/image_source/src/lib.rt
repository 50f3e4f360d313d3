//! What an assembly is read from (ECMA-335 II.22): an image, what is kept of its tokens, and the sizes of its data; and what of these
//! stands for types, methods, signatures and bodies.
#![tactic(auto)]

mod bodies;
mod references;
mod signatures;
mod source;

pub use bodies::body;
pub use references::{method, owner};
pub use signatures::{field_type, method_signature, property_signature};
pub use source::Source;

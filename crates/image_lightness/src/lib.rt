//! Whether the assembly that an image reads as weighs at most 2^26 (I24), decided from its rows and bytes before any tree is built
//! (ECMA-335 II.22).
#![tactic(auto)]

mod fresh;
mod light;
mod maps;

pub use light::weighs_little;

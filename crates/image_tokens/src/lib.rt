//! What an image names, each once: reference rows found again by their terms and their cells, the tokens of types, owners,
//! members, signatures of locals and loaded texts, signatures as blobs whose names have these tokens, and the indexes of texts
//! and blobs in their heaps (ECMA-335 II.22, II.23.2, II.24.2).
#![tactic(auto)]

pub mod blobs;
pub mod body_tokens;
pub mod found;
pub mod hashing;
pub mod heap_contents;
pub mod known;
pub mod locals;
pub mod members;
pub mod methods;
pub mod name_hashes;
pub mod name_tokens;
pub mod naming;
pub mod noting;
pub mod references;
mod row_links;
pub mod row_list;
pub mod row_set;
pub mod signatures;
pub mod texts;
pub mod tokens;
pub mod type_paths;
pub mod type_specs;
pub mod user_texts;

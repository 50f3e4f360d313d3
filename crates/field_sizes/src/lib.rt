//! The sizes of an image's data (II.22.18): of each row of FieldRVA how many bytes the type of its field has.
#![tactic(auto)]

mod sizes;

pub use sizes::data_sizes;

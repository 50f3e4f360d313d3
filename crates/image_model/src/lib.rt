//! What an image means: the metadata root and its streams, and how an image reads as an assembly.
#![tactic(auto)]

mod demand;
mod laws;
mod metadata;
mod place;

pub use demand::demand_text;
pub use laws::{
    a_tree_holds_its_types, an_image_has_one_fault, an_image_reads_as_one_assembly,
    data_has_one_size, tokens_name_one_thing, tokens_name_one_type,
};
pub use metadata::{Streams, put_together};
pub use place::Place;

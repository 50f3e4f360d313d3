//! Signatures as bytes, both ways (ECMA-335 II.23.2): what a type, a method, a field, a property, locals and an
//! instantiation are spelled as, with the tokens of a numberer and the names of a namer.
#![tactic(auto)]

mod boxing;
mod decode;
mod decoder;
mod element;
mod encode;
mod laws;
mod measure;
mod names;
mod number;
mod signature;
mod stop;
mod token;
mod types;
mod write;
mod write_type;

pub use decode::{
    decode_field, decode_instantiation, decode_locals, decode_method, decode_property, decode_type,
};
pub use decoder::{Left, kind_at, variable_at};
pub use element::Element;
pub use encode::{
    encode_field, encode_instantiation, encode_locals, encode_method, encode_property, encode_type,
};
pub use laws::{
    bytes_spell_one_signature, no_type_begins_another, read_is_spelled, shortest_is_read,
    what_is_read_has_a_spelling, written_is_read,
};
pub use names::{Namer, Numberer};
pub use number::{byte_at, number_at, signed_at};
pub use token::token_of_coded;

/// The nodes that the types of a signature may have in all.
pub const MAX_NODES: u32 = 2_097_152;

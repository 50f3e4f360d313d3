//! The bodies of methods as bytes, both ways (ECMA-335 II.25.4): instructions by their numbers on one side, offsets and
//! displacements on the other, with the tokens of a numberer and the names of a namer.
#![tactic(auto)]

mod decoding;
mod encoding;
mod fault;
mod laws;

pub use decoding::{
    ClauseRow, Clauses, Found, Header, Mark, Marks, Outline, Region, code_in, decode, named_tokens,
    read_header, read_outline,
};
pub use encoding::{BodyWriter, encode, written_is_read};
pub use fault::BodyFault;
pub use laws::{bytes_name_one_list, bytes_spell_one_body};

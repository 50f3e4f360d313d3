//! The tokens of an ILAsm source (II.5), or the first lexical fault in it.
#![tactic(auto)]

mod bytes;
mod classes;
mod gaps;
mod keys;
mod laws;
mod lexeme;
mod lines;
mod names;
mod pairs;
mod quotes;
mod runs;
mod scan;
mod searches;
mod spellings;
pub mod types;
pub mod word;
mod words;

pub use laws::{
    lexes_in_one_way, printed_spellings_are_read, spans_are_tokens, spellings_end,
    the_longest_gap_is_passed, the_longest_spelling_is_taken, tokens_are_spellings,
    words_are_tokens,
};
pub use lines::place_of;
pub use scan::{end_place, spans, spans_of, tokens};
pub use types::{LexFault, Lexeme, Span, Token, TokenKind};
pub use words::{WORDS, word_number, word_text};

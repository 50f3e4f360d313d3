//! The symbols that a row of the grammar spells.

use crate::fault::Fault;
use il_lexer::word_number;
use ilasm_grammar::{Symbol, terminals};
use std::collections::BTreeMap;

/// The numbers of the nonterminals, by their spellings.
pub type Nonterminals<'a> = BTreeMap<&'a str, u16>;

/// The symbol with this spelling: a nonterminal, a kind of tokens in capitals, or a word in backquotes.
pub fn symbol_of(nonterminals: &Nonterminals<'_>, spelling: &str) -> Option<Symbol> {
    if let Some(number) = nonterminals.get(spelling) {
        return Some(Symbol::Nonterminal(*number));
    }
    if let Some(kind) = kind_of(spelling) {
        return Some(Symbol::Terminal(kind));
    }
    let word = spelling.strip_prefix("`")?.strip_suffix("`")?;
    let number = word_number(word.as_bytes())?;
    Some(Symbol::Terminal(terminals::WORDS.saturating_add(number)))
}

fn kind_of(spelling: &str) -> Option<u16> {
    match spelling {
        "NAME" => Some(terminals::NAME),
        "SCOPE" => Some(terminals::SCOPE),
        "INT" => Some(terminals::INT),
        "QSTRING" => Some(terminals::QSTRING),
        "EQBYTES" => Some(terminals::EQ_BYTES),
        "BYTEARRAY" => Some(terminals::BYTE_ARRAY),
        "REALBYTES" => Some(terminals::REAL_BYTES),
        _ => None,
    }
}

/// The length of the first symbol's spelling in a body: up to a blank that stands in no group.
pub fn spelling_length(body: &str) -> usize {
    let mut length: usize = 0;
    let mut depth: usize = 0;
    for piece in body.split(' ') {
        if piece == "(" {
            depth = depth.saturating_add(1);
        } else if piece.starts_with(")") {
            depth = depth.saturating_sub(1);
        }
        length = length.saturating_add(piece.len());
        if depth == 0 {
            return length;
        }
        length = length.saturating_add(1);
    }
    body.len()
}

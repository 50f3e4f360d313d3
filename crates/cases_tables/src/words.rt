//! The words of the language: a row is a name in code and the word, and stands in the word's place.

use crate::fault::Fault;
use crate::rows::{differs, is_row, told};
use il_lexer::{WORDS, word_number};

/// Compares the rows of a text with the lexer's words.
///
/// # Errors
///
/// A row doesn't fit, or an answer can't be written.
pub fn compare(rt: &HostRuntime, name: &str, text: &str) -> Result<(), Fault> {
    let mut rows: usize = 0;
    for line in text.lines() {
        if is_row(line) {
            let Some((_, word)) = line.split_once(' ') else {
                return Err(Fault::Line);
            };
            if !stands_at(word, rows) {
                differs(rt, name, rows.saturating_add(1), line)?;
            }
            rows = rows.saturating_add(1);
        }
    }
    told(rt, name, rows, WORDS.len())
}

/// Whether the lexer has the word under this number, and finds it there.
fn stands_at(word: &str, number: usize) -> bool {
    WORDS.get(number) == Some(&word)
        && word_number(word.as_bytes()).map(usize::from) == Some(number)
}

//! The bytes of a token, by its span.

ghost use Rattle.std.specs.Prelude.{◌≡◌, ℕ, List, slice_get, Some};
ghost use Rattle.il_lexer.specs.Lexing.{all_placed, placed};
ghost use Rattle.source_model.specs.Forest.{Forest};
ghost use Rattle.source_model.specs.Source.{bytes_of, is_word_numbered, spelling, word_number, word_of_token};

use il_lexer::{Span, TokenKind};

/// The bytes of the token with this number; none where there is no such token.
pub fn spelling<'a>(source: &'a [u8], spans: &[Span], k: usize) -> &'a [u8]
    ensures { (tree : Forest) → result.now ≡ spelling (record { bytes = source.now; tokens = all_placed source.now spans.now; tree = tree }) k }
{
    match spans.get(k) {
        Some(span) => bytes_of(source, span),
        None => &[],
    }
}

// The bytes of a token.
fn bytes_of<'a>(source: &'a [u8], span: &Span) -> &'a [u8]
    ensures { result.now ≡ bytes_of source.now (Some (placed source.now span.now)) }
{
    let start = (span.start as usize).min(source.len());
    let (_, rest) = source.split_at(start);
    let length = span.end.saturating_sub(span.start) as usize;
    let (bytes, _) = rest.split_at(length.min(rest.len()));
    bytes
}

/// The number of the word that the token with this number is.
pub fn word_at(spans: &[Span], k: usize) -> Option<u16>
    ensures { (source : List ℕ) → result ≡ word_of_token (slice_get (all_placed source spans.now) k) }
{
    match spans.get(k) {
        Some(span) => word_number(span.kind),
        None => None,
    }
}

// The number of the word that a token of this kind is.
fn word_number(kind: TokenKind) -> Option<u16>
    ensures { result ≡ word_number kind }
{
    match kind {
        TokenKind::Word(number) => Some(number),
        _ => None,
    }
}

/// Whether the token with this number is this word.
pub fn is_word(spans: &[Span], word: u16, k: usize) -> bool
    ensures { (source : List ℕ) → result ≡ is_word_numbered word (word_of_token (slice_get (all_placed source spans.now) k)) }
{
    match word_at(spans, k) {
        Some(number) => word == number,
        None => false,
    }
}

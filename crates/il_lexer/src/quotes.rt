//! Texts in quotes: characters of one line and escapes.

ghost use Rattle.std.specs.Prelude.{◌≡◌, ◌<◌, ◌≤◌, length, IfSome};
ghost use Rattle.il_lexer.specs.Quotes.{line_end, is_octal_code, is_escape_letter, escape_length, char_length, any_escape_length, any_char_length, quoted_length, ends, quote_fault};

use crate::bytes::stands_at;
use crate::classes::is_octal;
use crate::runs::{Piece, run_of};

/// A line's end: a line feed, or a carriage return and a line feed.
pub fn line_end(rest: &[u8]) -> Option<usize>
    ensures value { result ≡ line_end rest.now }
    ensures fits { IfSome result (λ n. (0 < n) × (n ≤ length rest.now)) }
{
    let [first, more @ ..] = rest else {
        return None;
    };
    if *first == b'\n' {
        Some(1)
    } else if *first == b'\r' && stands_at(more, 0, b'\n') {
        Some(2)
    } else {
        None
    }
}

// Three octal digits from 001 to 177.
fn is_octal_code(rest: &[u8]) -> bool
    ensures { result ≡ is_octal_code rest.now }
{
    let [a, b, c, ..] = rest else {
        return false;
    };
    (*a == b'0' || *a == b'1')
        && is_octal(*b)
        && is_octal(*c)
        && !(*a == b'0' && *b == b'0' && *c == b'0')
}

// One of `t n r a b f v " ' \ ?`.
fn is_escape_letter(b: u8) -> bool
    ensures { result ≡ is_escape_letter b }
{
    matches!(
        b,
        b't' | b'n' | b'r' | b'a' | b'b' | b'f' | b'v' | b'"' | b'\'' | b'\\' | b'?'
    )
}

// What may follow a backslash: a letter of an escape, three octal digits, or a line's end.
fn escape_length(rest: &[u8]) -> Option<usize>
    ensures value { result ≡ escape_length rest.now }
    ensures fits { IfSome result (λ n. n ≤ length rest.now) }
{
    let [first, ..] = rest else {
        return None;
    };
    if is_escape_letter(*first) {
        return Some(1);
    }
    if is_octal_code(rest) {
        return Some(3);
    }
    line_end(rest)
}

// What any backslash takes along: the next byte, or a carriage return and a line feed.
fn any_escape_length(rest: &[u8]) -> Option<usize>
    ensures value { result ≡ any_escape_length rest.now }
    ensures fits { IfSome result (λ n. n ≤ length rest.now) }
{
    let [first, more @ ..] = rest else {
        return None;
    };
    if *first == b'\r' && stands_at(more, 0, b'\n') {
        Some(2)
    } else {
        Some(1)
    }
}

#[derive(Drop)]
struct AllowedChar {
    quote: u8,
}

impl Piece for AllowedChar {
    ghost piece_length = { λ p bs. char_length p.quote bs };

    fn piece(&self, rest: &[u8]) -> Option<usize> {
        let [first, more @ ..] = rest else {
            return None;
        };
        if *first == self.quote || *first == b'\n' || *first == 0 {
            return None;
        }
        if *first != b'\\' {
            return Some(1);
        }
        Some(1 + escape_length(more)?)
    }
}

#[derive(Drop)]
struct AnyChar {
    quote: u8,
}

impl Piece for AnyChar {
    ghost piece_length = { λ p bs. any_char_length p.quote bs };

    fn piece(&self, rest: &[u8]) -> Option<usize> {
        let [first, more @ ..] = rest else {
            return None;
        };
        if *first == self.quote || *first == b'\n' {
            return None;
        }
        if *first != b'\\' {
            return Some(1);
        }
        Some(1 + any_escape_length(more)?)
    }
}

/// After an opening `quote`, the length of the allowed text up to the closing quote, and that quote.
#[inline(never)]
pub fn quoted_length(quote: u8, rest: &[u8]) -> Option<usize>
    ensures value { result ≡ quoted_length quote rest.now }
    ensures fits { IfSome result (λ n. (0 < n) × (n ≤ length rest.now)) }
{
    let n = run_of(&AllowedChar { quote }, rest).bytes;
    if stands_at(rest, n, quote) {
        Some(n + 1)
    } else {
        None
    }
}

// After an opening `quote`, whether the text ends on its line, whatever escapes it has.
fn ends(quote: u8, rest: &[u8]) -> bool
    ensures { result ≡ ends quote rest.now }
{
    let n = run_of(&AnyChar { quote }, rest).bytes;
    stands_at(rest, n, quote)
}

/// The rule that a quote breaks which begins no token: 3 where it ends, else 2.
#[inline(never)]
pub fn quote_fault(quote: u8, rest: &[u8]) -> u8
    ensures { result ≡ quote_fault quote rest.now }
{
    if ends(quote, rest) { 3 } else { 2 }
}

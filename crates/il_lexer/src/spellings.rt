//! How far the spellings go that begin at the front of some bytes.

ghost use Rattle.std.specs.Prelude.{◌≡◌, ◌+◌, ◌<◌, ◌≤◌, length, IfSome};
ghost use Rattle.il_lexer.specs.Classes.{is_digit, is_hex, is_id_part};
ghost use Rattle.il_lexer.specs.Runs.{front, run_of};
ghost use Rattle.il_lexer.specs.Spellings.{id_length, empty_piece, is_empty_quote, quoted_part, part_length, dotted_part, name_length, is_exponent, is_barred, hex_length, decimal_length, int_length};

use crate::bytes::{behind, digit_at, hex_at, stands_at};
use crate::classes::{is_digit, is_hex, is_id_part, is_id_start};
use crate::quotes::{line_end, quoted_length};
use crate::runs::{Piece, run_of};

// The bytes at the front that go on in an identifier.
fn id_parts(rest: &[u8]) -> usize
    ensures value { result ≡ front is_id_part rest.now }
    ensures fits { result ≤ length rest.now }
{
    rest.iter().take_while(|b| is_id_part(**b)).count()
}

/// An identifier.
#[inline(never)]
pub fn id_length(rest: &[u8]) -> Option<usize>
    ensures value { result ≡ id_length rest.now }
    ensures fits { IfSome result (λ n. (0 < n) × (n ≤ length rest.now)) }
{
    let [first, more @ ..] = rest else {
        return None;
    };
    if is_id_start(*first) {
        Some(1 + id_parts(more))
    } else {
        None
    }
}

struct EmptyPiece;

impl Piece for EmptyPiece {
    ghost piece_length = { λ _ bs. empty_piece bs };

    fn piece(&self, rest: &[u8]) -> Option<usize> {
        let [b'\\', more @ ..] = rest else {
            return None;
        };
        Some(1 + line_end(more)?)
    }
}

// After an opening `'`: whether the text up to the closing one is empty.
fn is_empty_quote(rest: &[u8]) -> bool
    ensures { result ≡ is_empty_quote rest.now }
{
    let n = run_of(&EmptyPiece, rest).bytes;
    stands_at(rest, n, b'\'')
}

// After an opening `'`: the length of a quoted part that isn't empty, with both quotes.
#[inline(never)]
fn quoted_part(rest: &[u8]) -> Option<usize>
    ensures value { result ≡ quoted_part rest.now }
    ensures fits { IfSome result (λ n. (0 < n) × (n ≤ length rest.now + 1)) }
{
    if is_empty_quote(rest) {
        return None;
    }
    Some(1 + quoted_length(b'\'', rest)?)
}

// A part of a name.
fn part_length(rest: &[u8]) -> Option<usize>
    ensures value { result ≡ part_length rest.now }
    ensures fits { IfSome result (λ n. (0 < n) × (n ≤ length rest.now)) }
{
    let [first, more @ ..] = rest else {
        return None;
    };
    if *first == b'\'' {
        quoted_part(more)
    } else {
        id_length(rest)
    }
}

struct DottedPart;

impl Piece for DottedPart {
    ghost piece_length = { λ _ bs. dotted_part bs };

    fn piece(&self, rest: &[u8]) -> Option<usize> {
        let [b'.', more @ ..] = rest else {
            return None;
        };
        Some(1 + part_length(more)?)
    }
}

/// A name: parts joined by single dots.
#[inline(never)]
pub fn name_length(rest: &[u8]) -> Option<usize>
    ensures value { result ≡ name_length rest.now }
    ensures fits { IfSome result (λ n. (0 < n) × (n ≤ length rest.now)) }
{
    let n = part_length(rest)?;
    if !stands_at(rest, n, b'.') {
        return Some(n);
    }
    Some(n + dotted_parts(behind(rest, n)))
}

// The parts with dots before them.
#[inline(never)]
fn dotted_parts(rest: &[u8]) -> usize
    ensures value { result ≡ (run_of dotted_part rest.now).bytes }
    ensures within { result ≤ length rest.now }
{
    run_of(&DottedPart, rest).bytes
}

// After `e` or `E`: an optional sign and a digit.
fn is_exponent(rest: &[u8]) -> bool
    ensures { result ≡ is_exponent rest.now }
{
    let [first, more @ ..] = rest else {
        return false;
    };
    is_digit(*first) || ((*first == b'+' || *first == b'-') && digit_at(more, 0))
}

// What bars the decimal digits before it from being an integer.
fn is_barred(rest: &[u8]) -> bool
    ensures { result ≡ is_barred rest.now }
{
    let [first, more @ ..] = rest else {
        return false;
    };
    if *first == b'.' {
        return !stands_at(more, 0, b'.');
    }
    (*first == b'e' || *first == b'E') && is_exponent(more)
}

// The decimal digits at the front.
fn digits(rest: &[u8]) -> usize
    ensures value { result ≡ front is_digit rest.now }
    ensures fits { result ≤ length rest.now }
{
    rest.iter().take_while(|b| is_digit(**b)).count()
}

// The hexadecimal digits at the front.
fn hex_digits(rest: &[u8]) -> usize
    ensures value { result ≡ front is_hex rest.now }
    ensures fits { result ≤ length rest.now }
{
    rest.iter().take_while(|b| is_hex(**b)).count()
}

// After `0`: `x` and hexadecimal digits.
fn hex_length(rest: &[u8]) -> Option<usize>
    ensures value { result ≡ hex_length rest.now }
    ensures fits { IfSome result (λ n. n ≤ length rest.now) }
{
    let [b'x', more @ ..] = rest else {
        return None;
    };
    if hex_at(more, 0) {
        Some(1 + hex_digits(more))
    } else {
        None
    }
}

// All the decimal digits at the front, where they are an integer.
fn decimal_length(rest: &[u8]) -> Option<usize>
    ensures value { result ≡ decimal_length rest.now }
    ensures fits { IfSome result (λ n. (0 < n) × (n ≤ length rest.now)) }
{
    let n = digits(rest);
    if n > 0 && !is_barred(behind(rest, n)) {
        Some(n)
    } else {
        None
    }
}

/// An integer without its sign.
#[inline(never)]
pub fn int_length(rest: &[u8]) -> Option<usize>
    ensures value { result ≡ int_length rest.now }
    ensures fits { IfSome result (λ n. (0 < n) × (n ≤ length rest.now)) }
{
    if let [b'0', more @ ..] = rest {
        if let Some(n) = hex_length(more) {
            return Some(1 + n);
        }
    }
    decimal_length(rest)
}

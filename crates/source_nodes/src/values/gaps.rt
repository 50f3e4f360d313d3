//! Gaps within a token: blanks and comments (ECMA-335 II.5.2).

ghost use Rattle.std.specs.Prelude.{◌≡◌, ◌≤◌, ◌&&◌, ℕ, false, List, ◌++◌, length, drop};
ghost use Rattle.il_lexer.specs.Classes.{is_blank, first_is, first_passes};
ghost use Rattle.il_lexer.specs.Gaps.{is_close};
ghost use Rattle.il_lexer.specs.Runs.{front};
ghost use Rattle.il_lexer.specs.Spelled.{IsClosed, IsGap, is_no_line_feed};
ghost use Rattle.source_nodes.specs.Gaps.{may_begin_gap};

use crate::values::bytes::{behind, first_is};

/// What stands behind the gap at the front, where it begins with neither a blank nor `/`.
pub fn behind_gap(bytes: &[u8]) -> &[u8]
    ensures passed { (gap after : List ℕ) → IsGap gap → first_passes may_begin_gap after ≡ false → bytes.now ≡ gap ++ after → result.now ≡ after }
    ensures shorter { length result.now ≤ length bytes.now }
{
    let mut rest = bytes;
    while !rest.is_empty() {
        if begins_blank(rest) {
            rest = behind(rest, 1);
        } else if begin(rest, b'/', b'/') {
            rest = behind_line(behind(rest, 2));
        } else if begin(rest, b'/', b'*') {
            rest = behind_block(behind(rest, 2));
        } else {
            break;
        }
    }
    rest
}

// Whether a blank stands first.
fn begins_blank(rest: &[u8]) -> bool
    ensures { result ≡ first_passes is_blank rest.now }
{
    match rest {
        [first, ..] => matches!(*first, b'\t' | b'\n' | b'\r' | b' '),
        [] => false,
    }
}

// Whether these two bytes stand first.
fn begin(rest: &[u8], first: u8, second: u8) -> bool
    ensures { result ≡ (first_is first rest.now && first_is second (drop 1 rest.now)) }
{
    first_is(rest, first) && first_is(behind(rest, 1), second)
}

// What stands from the end of the line on.
fn behind_line(bytes: &[u8]) -> &[u8]
    ensures { result.now ≡ drop (front is_no_line_feed bytes.now) bytes.now }
{
    behind(bytes, length_of_line(bytes))
}

// The number of bytes before the end of the line.
fn length_of_line(bytes: &[u8]) -> usize
    ensures { result ≡ front is_no_line_feed bytes.now }
{
    bytes.iter().take_while(|byte| **byte != b'\n').count()
}

// What stands behind the next `*/`.
fn behind_block(bytes: &[u8]) -> &[u8]
    ensures passed { (text after : List ℕ) → IsClosed text → bytes.now ≡ text ++ after → result.now ≡ after }
    ensures shorter { length result.now ≤ length bytes.now }
{
    let mut rest = bytes;
    while !rest.is_empty() {
        if begin(rest, b'*', b'/') {
            return behind(rest, 2);
        }
        rest = behind(rest, 1);
    }
    rest
}

//! Bytes in parentheses.

ghost use Rattle.std.specs.Prelude.{◌≡◌, ◌<◌, ◌≤◌, length, IfSome};
ghost use Rattle.il_lexer.specs.Spellings.{pair_piece, pairs_in, bytes_length};

use crate::bytes::{behind, stands_at};
use crate::classes::is_hex;
use crate::gaps::gap;
use crate::runs::{Piece, run_of};

/// Bytes in parentheses, after the `(`: their length up to and with the `)`, and their number.
#[derive(Clone, Copy, Drop)]
pub struct Pairs {
    pub bytes: usize,
    pub count: usize,
}

struct PairPiece;

impl Piece for PairPiece {
    ghost piece_length = { λ _ bs. pair_piece bs };

    fn piece(&self, rest: &[u8]) -> Option<usize> {
        let [high, low, more @ ..] = rest else {
            return None;
        };
        if !is_hex(*high) || !is_hex(*low) {
            return None;
        }
        let between = gap(more);
        if between > 0 || stands_at(more, between, b')') {
            Some(2 + between)
        } else {
            None
        }
    }
}

/// Bytes in parentheses, after the `(`.
pub fn pairs_in(rest: &[u8]) -> Option<Pairs>
    ensures value { result ≡ pairs_in rest.now }
    ensures fits { IfSome result (λ p. p.bytes ≤ length rest.now) }
{
    let start = gap(rest);
    let found = run_of(&PairPiece, behind(rest, start));
    let end = start + found.bytes;
    if stands_at(rest, end, b')') {
        Some(Pairs {
            bytes: end + 1,
            count: found.pieces,
        })
    } else {
        None
    }
}

/// A gap, and bytes in parentheses.
#[inline(never)]
pub fn bytes_length(rest: &[u8]) -> Option<usize>
    ensures value { result ≡ bytes_length rest.now }
    ensures fits { IfSome result (λ n. n ≤ length rest.now) }
{
    let start = gap(rest);
    if !stands_at(rest, start, b'(') {
        return None;
    }
    Some(start + 1 + pairs_in(behind(rest, start + 1))?.bytes)
}

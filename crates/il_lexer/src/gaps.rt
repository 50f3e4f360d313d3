//! Gaps: blanks and comments.

ghost use Rattle.std.specs.Prelude.{◌≡◌, ◌+◌, ◌<◌, ◌≤◌, ◌==◌, not, length, drop, IfSome};
ghost use Rattle.il_lexer.specs.Runs.{front};
ghost use Rattle.il_lexer.specs.Gaps.{is_close, block_length, comment_length, gap_piece, gap};
ghost use Rattle.il_lexer.specs.Lexing.{after_gap};

use crate::bytes::{behind, stands_at};
use crate::classes::{is_blank, is_gap_start};
use crate::runs::{Piece, run_of};
use crate::searches::{Kind, before};

// Whether a comment's end is at the front.
fn is_close(rest: &[u8]) -> bool
    ensures { result ≡ is_close rest.now }
{
    stands_at(rest, 0, b'*') && stands_at(rest, 1, b'/')
}

// The bytes up to and with the next `*/`.
fn block_length(rest: &[u8]) -> Option<usize>
    ensures value { result ≡ block_length rest.now }
    ensures fits { IfSome result (λ n. n ≤ length rest.now) }
{
    let mut at = 0;
    while at < rest.len() {
        if is_close(behind(rest, at)) {
            return Some(at + 2);
        }
        at += 1;
    }
    None
}

struct LineFeed;

impl Kind for LineFeed {
    ghost is_kind = { λ _ c. c == 10 };

    fn has(&self, byte: u8) -> bool {
        byte == b'\n'
    }
}

/// The bytes up to the end of the line.
pub fn line_length(rest: &[u8]) -> usize
    ensures value { result ≡ front (λ c. not (c == 10)) rest.now }
    ensures fits { result ≤ length rest.now }
{
    before(&LineFeed, rest)
}

// The rest of a comment after its `/`.
#[inline(never)]
fn comment_length(rest: &[u8]) -> Option<usize>
    ensures value { result ≡ comment_length rest.now }
    ensures fits { IfSome result (λ n. n ≤ length rest.now) }
{
    match rest {
        [b'/', more @ ..] => Some(1 + line_length(more)),
        [b'*', more @ ..] => Some(1 + block_length(more)?),
        _ => None,
    }
}

struct GapPiece;

impl Piece for GapPiece {
    ghost piece_length = { λ _ bs. gap_piece bs };

    fn piece(&self, rest: &[u8]) -> Option<usize> {
        let [first, more @ ..] = rest else {
            return None;
        };
        if is_blank(*first) {
            return Some(1);
        }
        if *first != b'/' {
            return None;
        }
        Some(1 + comment_length(more)?)
    }
}

/// The bytes of the gap at the front, which may be none.
pub fn gap(rest: &[u8]) -> usize
    ensures value { result ≡ gap rest.now }
    ensures within { result ≤ length rest.now }
{
    run_of(&GapPiece, rest).bytes
}

// The same in a function of its own, so that the tokens' loop stays short: few gaps are long.
#[inline(never)]
fn long_gap(rest: &[u8]) -> usize
    ensures value { result ≡ gap rest.now }
    ensures within { result ≤ length rest.now }
{
    gap(rest)
}

// The bytes of a gap of one blank or nothing, as most are.
#[tactic(auto, using(crate::proofs::GapFronts::gap_none, crate::proofs::GapFronts::gap_one))]
fn short_gap(rest: &[u8]) -> Option<usize>
    ensures value { IfSome result (λ n. gap rest.now ≡ n) }
    ensures fits { IfSome result (λ n. n ≤ length rest.now) }
{
    let [first, more @ ..] = rest else {
        return None;
    };
    if *first != b' ' {
        return if is_gap_start(*first) { None } else { Some(0) };
    }
    let [second, ..] = more else {
        return None;
    };
    if is_gap_start(*second) { None } else { Some(1) }
}

/// Where the gap at `at` ends.
pub fn past_gap(source: &[u8], at: usize) -> usize
    requires { at ≤ length source.now }
    ensures value { result ≡ after_gap source.now at }
    ensures within { result ≤ length source.now }
{
    let rest = behind(source, at);
    match short_gap(rest) {
        Some(n) => at + n,
        None => at + long_gap(rest),
    }
}

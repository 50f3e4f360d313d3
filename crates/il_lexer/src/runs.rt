//! Runs of pieces of one form at the front of some bytes.

ghost use Rattle.std.specs.Prelude.{◌≡◌, ◌<◌, ◌≤◌, length, IfSome, List, Option, ℕ};
ghost use Rattle.il_lexer.specs.Runs.{run_of};

use crate::bytes::behind;

/// How far a run of pieces goes.
#[derive(Clone, Copy, Drop)]
pub struct Run {
    pub bytes: usize,
    pub pieces: usize,
}

/// A form of which there may be a piece at the front of some bytes.
pub trait Piece {
    ghost use Rattle.std.specs.Prelude.{ℕ, List, Option};

    ghost piece_length: { Self → List ℕ → Option ℕ };

    /// The length of the piece at the front of `rest`, where there is one.
    fn piece(&self, rest: &[u8]) -> Option<usize>
        ensures value { result ≡ piece_length self.now rest.now }
        ensures fits { IfSome result (λ n. (0 < n) × (n ≤ length rest.now)) };
}

/// The pieces at the front of `rest`, one after another for as long as there is one.
pub fn run_of<P: Piece>(piece: &P, rest: &[u8]) -> Run
    ensures value { result ≡ run_of (P.piece_length piece.now) rest.now }
    ensures within { result.bytes ≤ length rest.now }
{
    let mut at = 0;
    let mut pieces = 0;
    while let Some(n) = piece.piece(behind(rest, at)) {
        at += n;
        pieces += 1;
    }
    Run { bytes: at, pieces }
}

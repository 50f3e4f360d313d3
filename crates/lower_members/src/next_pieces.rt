//! The first of some pieces, and those behind it.

ghost use Rattle.std.specs.Prelude.{◌≡◌, [], ◌∷◌, MatchOption};

use source_nodes::pieces::Piece;

/// The first piece and those behind it, where there is one.
pub fn next(found: &[Piece]) -> Option<(Piece, &[Piece])>
    ensures { MatchOption result (found.now ≡ []) (λ step. found.now ≡ step.0 ∷ step.1.now) }
{
    match found {
        [] => None,
        [first, rest @ ..] => Some((*first, rest)),
    }
}

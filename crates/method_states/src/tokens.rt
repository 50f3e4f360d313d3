ghost use Rattle.std.specs.Prelude.{[], ◌∷◌, map};
ghost use Rattle.body_codec.specs.NamedTokens.{locals_in};
ghost use Rattle.body_outlines.specs.Outlines.{tokens_of};
ghost use Rattle.body_outlines.specs.declared.outlined.TokenUse.{TokenUse};
ghost use Rattle.method_states.specs.Marks.{MarkBesides};

use crate::RowMarks;
use body_outlines::{BodyOutline, TokenUse};

/// Marks the rows that a body names (ECMA-335 II.25.4, III.1.9).
pub(crate) fn mark_tokens(marks: &mut RowMarks, outline: &BodyOutline)
    ensures { MarkBesides marks.old (tokens_of outline.now) marks.new }
{
    let operands = outline.operands.as_slice();
    let catches = outline.catches.as_slice();
    mark_locals(marks, outline.locals);
    mark_operands(marks, operands);
    mark_each(marks, catches);
}

/// Marks the row that the token of locals names; 0 names none.
#[tactic(auto, using(crate::proofs::Marking::locals_steps))]
fn mark_locals(marks: &mut RowMarks, token: u32)
    ensures { MarkBesides marks.old (locals_in token) marks.new }
{
    if token == 0 {
        return;
    }
    mark_token(marks, token);
}

/// Marks the rows that operands name.
fn mark_operands(marks: &mut RowMarks, uses: &[TokenUse])
    ensures { MarkBesides marks.old (map (λ (u : TokenUse). u.token) uses.now) marks.new }
{
    for one in uses {
        mark_token(marks, one.token);
    }
}

/// Marks the rows that tokens name.
fn mark_each(marks: &mut RowMarks, tokens: &[u32])
    ensures { MarkBesides marks.old tokens.now marks.new }
{
    for token in tokens {
        mark_token(marks, *token);
    }
}

/// Marks the row that a token names: the table in its highest byte, the row in the others.
fn mark_token(marks: &mut RowMarks, token: u32)
    ensures { MarkBesides marks.old (token ∷ []) marks.new }
{
    let table = (token / 0x100_0000) as u8;
    let row = token % 0x100_0000;
    marks.mark(table, row);
}

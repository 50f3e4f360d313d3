ghost use Rattle.std.specs.Prelude.{ℕ};
ghost use Rattle.type_terms.specs.declared.term.SigType.{SigType};
ghost use Rattle.type_hierarchy.specs.Laws.{IsGrounded};
ghost use Rattle.code_flow.specs.Frames.{Frame};
ghost use Rattle.code_flow.specs.Laws.{AreMonotone, HasOneLeast, IsFormed, PathsAreRight};

use type_order::{assignable_is_a_preorder, joins_are_least_upper_bounds};

/// The demands and effects of every instruction are monotone in the order of stack types, and where each
/// value may stand for another or that one is Bad (ECMA-335 III.1.8.1). It does nothing when it is called.
pub fn instructions_are_monotone()
    ensures { (f : Frame) (height : SigType → ℕ) → IsGrounded f.types height → AreMonotone f }
{
    assignable_is_a_preorder();
    joins_are_least_upper_bounds();
}

/// A body has at most one least typing. It does nothing when it is called.
pub fn a_body_has_one_least_typing()
    ensures { (f : Frame) (height : SigType → ℕ) → IsGrounded f.types height → HasOneLeast f }
{
    joins_are_least_upper_bounds();
}

/// Where no reached instruction breaks a rule, every path of a well-formed body meets each demand on its
/// operands, whatever types values have there that may stand where theirs are stated, and stays in the
/// code. It does nothing when it is called.
pub fn paths_are_right()
    ensures { (f : Frame) (height : SigType → ℕ) → IsGrounded f.types height → IsFormed f → PathsAreRight f }
{
    assignable_is_a_preorder();
    instructions_are_monotone();
}

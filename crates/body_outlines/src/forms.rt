ghost use Rattle.std.specs.Prelude.{◌≡◌};
ghost use Rattle.body_codec.specs.Instruction.{kind};
ghost use Rattle.body_codec.specs.Names.{takes_token};

use opcode_table::{Op, OperandKind, kind_of};

/// What stands behind an opcode.
#[tactic(auto, unfolding(body_codec::specs::Instruction::kind))]
pub(crate) fn kind(op: Op) -> OperandKind
    ensures { result ≡ kind op }
{
    kind_of(op)
}

/// Whether an operand of this kind is a token (ECMA-335 III.1.9).
pub(crate) fn takes_token(kind: OperandKind) -> bool
    ensures { result ≡ takes_token kind }
{
    matches!(
        kind,
        OperandKind::Method
            | OperandKind::Field
            | OperandKind::Of
            | OperandKind::Text
            | OperandKind::Token
    )
}

ghost use Rattle.std.specs.Prelude.{◌≡◌, ◌<◌};
ghost use Rattle.opcode_table.specs.Sizes.{opcode_size, operand_size};

use crate::{Op, OperandKind, bytes_of};

/// The bytes of an opcode, one or two (III.1.2).
#[tactic(auto, unfolding(crate::specs::Sizes::opcode_size))]
pub fn opcode_size(op: Op) -> usize
    ensures size { result ≡ opcode_size op }
    ensures small { result < 3 }
{
    match bytes_of(op) {
        (_, None) => 1,
        (_, Some(_)) => 2,
    }
}

/// The bytes of an operand of this form (III.1.9). Of a switch they are those of its count: each target has four more.
pub fn operand_size(kind: OperandKind) -> usize
    ensures size { result ≡ operand_size kind 0 }
    ensures small { result < 9 }
{
    match kind {
        OperandKind::Nothing => 0,
        OperandKind::Var8 | OperandKind::Num8 | OperandKind::Byte | OperandKind::Branch8 => 1,
        OperandKind::Var16 => 2,
        OperandKind::Num64 | OperandKind::Real8 => 8,
        OperandKind::Num32
        | OperandKind::Real4
        | OperandKind::Branch32
        | OperandKind::Switch
        | OperandKind::Method
        | OperandKind::Field
        | OperandKind::Of
        | OperandKind::Text
        | OperandKind::Token => 4,
    }
}

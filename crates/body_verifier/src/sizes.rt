//! How many bytes instructions take (ECMA-335 III.1.2). Nothing here takes memory.
ghost use Rattle.std.specs.Prelude.{◌≡◌, ◌+◌, ◌<◌, ◌^◌, sum_by};
ghost use Rattle.assembly_tree.specs.WellFormedBodies.{operand_size, targets_size, size_of};

use assembly_tree::{Ins, Operand};
use opcode_table::{OperandKind, kind_of, opcode_size};

/// The bytes of the operand of a switch: its count, and 4 for each target.
fn targets_size(operand: &Operand) -> u32
    requires { targets_size operand.now < 2 ^ 32 }
    ensures { result ≡ targets_size operand.now }
{
    match operand {
        Operand::Targets(targets) => 4 + 4 * targets.get().len() as u32,
        Operand::Nothing
        | Operand::Var(_)
        | Operand::Int(_)
        | Operand::Real(_)
        | Operand::Target(_)
        | Operand::Method(_)
        | Operand::Field(_)
        | Operand::Of(_)
        | Operand::Text(_) => 4,
    }
}

/// The bytes of an operand of that form.
fn operand_size(kind: OperandKind, operand: &Operand) -> u32
    requires { operand_size kind operand.now < 2 ^ 32 }
    ensures { result ≡ operand_size kind operand.now }
{
    match kind {
        OperandKind::Nothing => 0,
        OperandKind::Var8 | OperandKind::Num8 | OperandKind::Byte | OperandKind::Branch8 => 1,
        OperandKind::Var16 => 2,
        OperandKind::Num64 | OperandKind::Real8 => 8,
        OperandKind::Switch => targets_size(operand),
        OperandKind::Num32
        | OperandKind::Real4
        | OperandKind::Branch32
        | OperandKind::Method
        | OperandKind::Field
        | OperandKind::Of
        | OperandKind::Text
        | OperandKind::Token => 4,
    }
}

/// The bytes of an instruction.
#[tactic(auto, unfolding(assembly_tree::specs::WellFormedBodies::size_of, assembly_tree::specs::WellFormedBodies::operand_kind))]
fn size_of(ins: &Ins) -> u32
    requires { size_of ins.now < 2 ^ 32 }
    ensures { result ≡ size_of ins.now }
{
    let opcode = opcode_size(ins.op) as u32;
    opcode + operand_size(kind_of(ins.op), &ins.operand)
}

/// The bytes of instructions.
pub(crate) fn code_size(code: &[Ins]) -> u32
    requires { sum_by size_of code.now < 2 ^ 32 }
    ensures { result ≡ sum_by size_of code.now }
{
    let mut size = 0;
    for ins in code {
        size += size_of(ins);
    }
    size
}

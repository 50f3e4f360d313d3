ghost use Rattle.std.specs.Prelude.{◌≡◌, nat_lt};
ghost use Rattle.std.specs.List.{list_all};
ghost use Rattle.assembly_tree.specs.WellFormedBodies.{operand_kind, fits_kind, are_targets, is_operand, is_instruction};

use super::formed_parts::Formed;
use crate::{Assembly, Code, Ins, Operand};
use il_lists::Numbers;
use opcode_table::{Op, OperandKind, kind_of};

/// The form of the opcode's operand.
#[tactic(auto, unfolding(crate::specs::WellFormedBodies::operand_kind))]
pub fn operand_kind(op: Op) -> OperandKind
    ensures { result ≡ operand_kind op }
{
    kind_of(op)
}

/// Whether the form takes the operand.
fn fits_kind(kind: OperandKind, operand: &Operand) -> bool
    ensures { result ≡ fits_kind kind operand.now }
{
    match (kind, operand) {
        (OperandKind::Nothing, Operand::Nothing) => true,
        (OperandKind::Var8, Operand::Var(n)) => *n <= 0xFF,
        (OperandKind::Var16, Operand::Var(_)) => true,
        (OperandKind::Num8, Operand::Int(n)) => *n >= -0x80 && *n <= 0x7F,
        (OperandKind::Num32, Operand::Int(n)) => *n >= -0x8000_0000 && *n <= 0x7FFF_FFFF,
        (OperandKind::Num64, Operand::Int(_)) => true,
        (OperandKind::Byte, Operand::Int(n)) => *n >= 0 && *n <= 0xFF,
        (OperandKind::Real4, Operand::Real(bits)) => *bits <= 0xFFFF_FFFF,
        (OperandKind::Real8, Operand::Real(_)) => true,
        (OperandKind::Branch8 | OperandKind::Branch32, Operand::Target(_)) => true,
        (OperandKind::Switch, Operand::Targets(_)) => true,
        (OperandKind::Method | OperandKind::Token, Operand::Method(_)) => true,
        (OperandKind::Field | OperandKind::Token, Operand::Field(_)) => true,
        (OperandKind::Of | OperandKind::Token, Operand::Of(_)) => true,
        (OperandKind::Text, Operand::Text(_)) => true,
        _ => false,
    }
}

/// Whether each target is one of so many instructions.
fn are_targets(count: usize, operand: &Operand) -> bool
    ensures { result ≡ are_targets count operand.now }
{
    match operand {
        Operand::Target(at) => (*at as usize) < count,
        Operand::Targets(targets) => are_below(count, targets.get()),
        Operand::Nothing
        | Operand::Var(_)
        | Operand::Int(_)
        | Operand::Real(_)
        | Operand::Method(_)
        | Operand::Field(_)
        | Operand::Of(_)
        | Operand::Text(_) => true,
    }
}

fn are_below(count: usize, targets: &Numbers) -> bool
    ensures { result ≡ list_all (λ t. nat_lt t count) targets.now }
{
    targets.as_slice().iter().all(|at| (*at as usize) < count)
}

/// Whether the instruction's operand fits it, and its targets are among so many instructions.
fn is_instruction(count: usize, ins: &Ins) -> bool
    ensures { result ≡ is_instruction count ins.now }
{
    fits_kind(operand_kind(ins.op), &ins.operand) && are_targets(count, &ins.operand)
}

/// Whether that is so of each instruction.
pub fn are_instructions(count: usize, code: &Code) -> bool
    ensures { result ≡ list_all (is_instruction count) code.now }
{
    code.as_slice().iter().all(|ins| is_instruction(count, ins))
}

impl Formed for Operand {
    ghost formed = { is_operand };

    fn is_formed(&self, a: &Assembly) -> bool {
        match self {
            Operand::Method(method) => method.get().is_formed(a),
            Operand::Field(field) => field.get().is_formed(a),
            Operand::Of(owner) => owner.get().is_formed(a),
            Operand::Nothing
            | Operand::Var(_)
            | Operand::Int(_)
            | Operand::Real(_)
            | Operand::Target(_)
            | Operand::Targets(_)
            | Operand::Text(_) => true,
        }
    }
}

impl Formed for Ins {
    ghost formed = { λ a i. is_operand a i.operand };

    fn is_formed(&self, a: &Assembly) -> bool {
        self.operand.is_formed(a)
    }
}

ghost use Rattle.std.specs.Prelude.{◌≡◌, ◌-◌, ◌≤◌, ◌<◌, nat_le, length, sum_by};
ghost use Rattle.assembly_tree.specs.WellFormedBodies.{opcode_size, operand_size, targets_size, size_of, offset_of, is_near, reaches_at, short_branches_reach};

use super::operands::operand_kind;
use crate::weighing::charge_each;
use crate::{Ins, Operand};
use opcode_table::{OperandKind, opcode_size, operand_size};

/// What is left of `left` once the bytes of a switch's operand are taken off, or 4 for any other operand.
fn take_targets(left: u64, operand: &Operand) -> u64
    ensures { result ≡ left - targets_size operand.now }
{
    let left = left.saturating_sub(4);
    match operand {
        Operand::Targets(targets) => charge_each(left, 4, targets.get().len()),
        Operand::Nothing
        | Operand::Var(_)
        | Operand::Int(_)
        | Operand::Real(_)
        | Operand::Target(_)
        | Operand::Method(_)
        | Operand::Field(_)
        | Operand::Of(_)
        | Operand::Text(_) => left,
    }
}

/// What is left of `left` once the bytes of an operand of that form are taken off.
fn take_operand(left: u64, kind: OperandKind, operand: &Operand) -> u64
    ensures { result ≡ left - operand_size kind operand.now }
{
    match kind {
        OperandKind::Switch => take_targets(left, operand),
        _ => left.saturating_sub(operand_size(kind) as u64),
    }
}

impl Ins {
    /// What is left of `left` once the instruction's bytes are taken off.
    #[tactic(auto, using(crate::proofs::Charging::both_off), unfolding(crate::specs::WellFormedBodies::size_of))]
    fn take_size(&self, left: u64) -> u64
        ensures { result ≡ left - size_of self.now }
    {
        let left = left.saturating_sub(opcode_size(self.op) as u64);
        take_operand(left, operand_kind(self.op), &self.operand)
    }
}

/// Whether the instructions have at most `room` bytes. Looks at no more of them than that.
fn fits_in(code: &[Ins], room: u64) -> bool
    requires { room < 1000 }
    ensures { result ≡ nat_le (sum_by size_of code.now) room }
{
    let mut left = room + 1;
    let mut rest = code;
    while let [ins, more @ ..] = rest {
        left = ins.take_size(left);
        if left == 0 {
            return false;
        }
        rest = more;
    }
    true
}

/// Whether a branch from instruction `k` reaches its target, if it is a short one.
fn reaches_at(code: &[Ins], k: usize, kind: OperandKind, operand: &Operand) -> bool
    requires { k < length code.now }
    ensures { result ≡ reaches_at code.now k kind operand.now }
{
    match (kind, operand) {
        (OperandKind::Branch8, Operand::Target(at)) => is_near(code, k + 1, *at as usize),
        _ => true,
    }
}

/// Whether a displacement in one byte leads from the offset of instruction `from` to that of `to`.
fn is_near(code: &[Ins], from: usize, to: usize) -> bool
    requires { from ≤ length code.now }
    ensures { result ≡ is_near (offset_of code.now from) (offset_of code.now to) }
{
    let to = to.min(code.len());
    if to < from {
        fits_in(&code[to..from], 0x80)
    } else {
        fits_in(&code[from..to], 0x7F)
    }
}

/// Whether each short branch reaches its target.
#[tactic(auto, unfolding(crate::specs::WellFormedBodies::short_branches_reach))]
pub fn short_branches_reach(code: &[Ins]) -> bool
    ensures { result ≡ short_branches_reach code.now }
{
    let mut k = 0;
    let mut rest = code;
    while let [ins, more @ ..] = rest {
        if !reaches_at(code, k, operand_kind(ins.op), &ins.operand) {
            return false;
        }
        k += 1;
        rest = more;
    }
    true
}

ghost use Rattle.std.specs.Prelude.{◌≡◌, ◌+◌, ◌*◌, ◌≤◌, ◌<◌, ℕ, pos, ◌+ℤ◌, length, IfOk, IfErr, OnOk, IfSome, IfNone};
ghost use Rattle.std.specs.Bool.{OnTrue, OnFalse};
ghost use Rattle.byteorder.specs.Endian.{little_number};
ghost use Rattle.opcode_table.specs.declared.kind.OperandKind.TheVariants as kinds;
ghost use Rattle.body_codec.specs.Instruction.{place, kind, displacement};
ghost use Rattle.body_codec.specs.Spelling.{LeadsTo, SpellsTargets, form, target};
ghost use Rattle.body_codec.specs.Faults.{HaveTargets, HasTargets, LacksTarget};
ghost use Rattle.body_codec.specs.Reading.{pieces_of, piece_of, IsLayout, IsMark, IsAimed, IsTargetFault};

use super::layout::Layout;
use super::marks::Mark;
use super::opcode::kind;
use crate::BodyFault;
use byteorder::{ByteOrder, LittleEndian};
use il_lists::{Items, NoMemory, Numbers};
use opcode_table::OperandKind;
use std::alloc::Global;

/// The first instruction with a target that is no instruction is at fault.
pub(crate) fn check_targets(layout: &Layout<'_>) -> Result<(), BodyFault>
    requires { IsLayout layout.now.code.now layout.now.marks.now layout.now.starts.now }
    ensures found { OnOk result (HaveTargets (pieces_of layout.now.code.now layout.now.marks.now) (length layout.now.marks.now)) }
    ensures fault { IfErr result (IsTargetFault (pieces_of layout.now.code.now layout.now.marks.now)) }
{
    for mark in layout.marks {
        if !has_targets(layout, mark) {
            return Err(BodyFault::Target { offset: mark.start });
        }
    }
    Ok(())
}

/// Whether each target of the instruction is an instruction.
fn has_targets(layout: &Layout<'_>, mark: &Mark) -> bool
    requires layout { IsLayout layout.now.code.now layout.now.marks.now layout.now.starts.now }
    requires mark { IsMark layout.now.code.now mark.now }
    ensures good { OnTrue result ((k : ℕ) → place (pieces_of layout.now.code.now layout.now.marks.now) (k + 1) ≡ mark.now.end
        → HasTargets (pieces_of layout.now.code.now layout.now.marks.now) k (piece_of layout.now.code.now mark.now)) }
    ensures bad { OnFalse result ((k : ℕ) → place (pieces_of layout.now.code.now layout.now.marks.now) (k + 1) ≡ mark.now.end
        → LacksTarget (pieces_of layout.now.code.now layout.now.marks.now) k (piece_of layout.now.code.now mark.now)) }
{
    match kind(mark.op) {
        OperandKind::Branch8 | OperandKind::Branch32 => branch_target(layout, mark).is_some(),
        OperandKind::Switch => switch_has_targets(layout, mark),
        _ => true,
    }
}

/// The instruction that this is so far behind an instruction.
fn target_behind(layout: &Layout<'_>, mark: &Mark, distance: i64) -> Option<u32>
    requires { IsLayout layout.now.code.now layout.now.marks.now layout.now.starts.now }
    ensures found { IfSome result (λ t. (k : ℕ) → place (pieces_of layout.now.code.now layout.now.marks.now) (k + 1) ≡ mark.now.end
        → LeadsTo (pieces_of layout.now.code.now layout.now.marks.now) k t distance) }
    ensures none { IfNone result ((k t : ℕ) → place (pieces_of layout.now.code.now layout.now.marks.now) (k + 1) ≡ mark.now.end
        → LeadsTo (pieces_of layout.now.code.now layout.now.marks.now) k t distance → ⊥) }
{
    let offset = u64::from(mark.end).checked_add_signed(distance)?;
    layout.start_at(offset)
}

/// The target of a branch (ECMA-335 III.1.7.2).
pub(crate) fn branch_target(layout: &Layout<'_>, mark: &Mark) -> Option<u32>
    requires layout { IsLayout layout.now.code.now layout.now.marks.now layout.now.starts.now }
    requires mark { IsMark layout.now.code.now mark.now }
    requires branch { form (kind mark.now.op) ≡ target }
    ensures found { IfSome result (λ t. (k : ℕ) → place (pieces_of layout.now.code.now layout.now.marks.now) (k + 1) ≡ mark.now.end
        → LeadsTo (pieces_of layout.now.code.now layout.now.marks.now) k t (displacement (kind mark.now.op) (piece_of layout.now.code.now mark.now).tail 0)) }
    ensures none { IfNone result ((k t : ℕ) → place (pieces_of layout.now.code.now layout.now.marks.now) (k + 1) ≡ mark.now.end
        → LeadsTo (pieces_of layout.now.code.now layout.now.marks.now) k t (displacement (kind mark.now.op) (piece_of layout.now.code.now mark.now).tail 0) → ⊥) }
{
    let tail = layout.tail(mark);
    target_behind(layout, mark, LittleEndian::read_int(tail, tail.len()))
}

/// The target of this number of a switch (ECMA-335 III.3.66).
fn switch_target(layout: &Layout<'_>, mark: &Mark, i: usize) -> Option<u32>
    requires layout { IsLayout layout.now.code.now layout.now.marks.now layout.now.starts.now }
    requires mark { IsMark layout.now.code.now mark.now }
    requires switch { kind mark.now.op ≡ kinds.Switch }
    requires within { i < little_number 4 (piece_of layout.now.code.now mark.now).tail }
    ensures found { IfSome result (λ t. (k : ℕ) → place (pieces_of layout.now.code.now layout.now.marks.now) (k + 1) ≡ mark.now.end
        → LeadsTo (pieces_of layout.now.code.now layout.now.marks.now) k t (displacement kinds.Switch (piece_of layout.now.code.now mark.now).tail i)) }
    ensures none { IfNone result ((k t : ℕ) → place (pieces_of layout.now.code.now layout.now.marks.now) (k + 1) ≡ mark.now.end
        → LeadsTo (pieces_of layout.now.code.now layout.now.marks.now) k t (displacement kinds.Switch (piece_of layout.now.code.now mark.now).tail i) → ⊥) }
{
    target_behind(layout, mark, switch_distance(layout.tail(mark), i))
}

/// The displacement of this number of a switch.
#[tactic(auto, using(std::proofs::lemmas::List::take_rest))]
fn switch_distance(tail: &[u8], i: usize) -> i64
    requires { 4 + 4 * i + 4 ≤ length tail.now }
    ensures { result ≡ displacement kinds.Switch tail.now i }
{
    LittleEndian::read_int(&tail[4 + 4 * i..], 4)
}

/// How many targets a switch has.
fn switch_count(layout: &Layout<'_>, mark: &Mark) -> usize
    requires mark { IsMark layout.now.code.now mark.now }
    requires switch { kind mark.now.op ≡ kinds.Switch }
    ensures { result ≡ little_number 4 (piece_of layout.now.code.now mark.now).tail }
{
    LittleEndian::read_u32(layout.tail(mark)) as usize
}

/// Whether each target of a switch is an instruction.
fn switch_has_targets(layout: &Layout<'_>, mark: &Mark) -> bool
    requires layout { IsLayout layout.now.code.now layout.now.marks.now layout.now.starts.now }
    requires mark { IsMark layout.now.code.now mark.now }
    requires switch { kind mark.now.op ≡ kinds.Switch }
    ensures good { OnTrue result ((k : ℕ) → place (pieces_of layout.now.code.now layout.now.marks.now) (k + 1) ≡ mark.now.end
        → HasTargets (pieces_of layout.now.code.now layout.now.marks.now) k (piece_of layout.now.code.now mark.now)) }
    ensures bad { OnFalse result ((k : ℕ) → place (pieces_of layout.now.code.now layout.now.marks.now) (k + 1) ≡ mark.now.end
        → LacksTarget (pieces_of layout.now.code.now layout.now.marks.now) k (piece_of layout.now.code.now mark.now)) }
{
    for i in 0..switch_count(layout, mark) {
        if switch_target(layout, mark, i).is_none() {
            return false;
        }
    }
    true
}

/// The targets of a switch.
pub(crate) fn switch_targets(
    alloc: Global,
    layout: &Layout<'_>,
    mark: &Mark,
) -> Result<Numbers, NoMemory>
    requires layout { IsLayout layout.now.code.now layout.now.marks.now layout.now.starts.now }
    requires mark { IsMark layout.now.code.now mark.now }
    requires switch { kind mark.now.op ≡ kinds.Switch }
    requires aimed { IsAimed (pieces_of layout.now.code.now layout.now.marks.now) mark.now (piece_of layout.now.code.now mark.now) }
    ensures { IfOk result (λ targets. (k : ℕ) → place (pieces_of layout.now.code.now layout.now.marks.now) (k + 1) ≡ mark.now.end
        → SpellsTargets (pieces_of layout.now.code.now layout.now.marks.now) k (piece_of layout.now.code.now mark.now).tail targets) }
{
    let count = switch_count(layout, mark);
    let mut targets = Items::with_capacity(alloc, count)?;
    for i in 0..count {
        let target = switch_target(layout, mark, i).unwrap();
        targets.push(target)?;
    }
    Ok(targets)
}

//! The code offsets of instructions, by which they are labelled (ECMA-335 III.1.7).
ghost use Rattle.std.specs.Prelude.{◌≡◌, ◌+◌, IfOk, OnOk};
ghost use Rattle.assembly_tree.specs.WellFormedBodies.{size_of, offset_of, operand_size, targets_size};
ghost use Rattle.listing_model.specs.Bodies.{to_label};
ghost use Rattle.listing_model.specs.Shown.{none};
ghost use Rattle.print_bodies.specs.Offsets.{offsets_from};
ghost use Rattle.print_leaves.specs.Page.{drawn};

use assembly_tree::{Ins, Operand};
use il_lists::{Items, NoMemory};
use opcode_table::{OperandKind, kind_of, opcode_size, operand_size};
use print_leaves::Paper;
use std::alloc::Global;
use std::marker::Model;

/// The offsets of the instructions of a body, and that of its end. Contracts see the instructions.
#[derive(Drop)]
pub(crate) struct Offsets<'a> {
    code: &'a [Ins],
    offsets: Items<u64>,
}

impl<'a> Model for Offsets<'a> {
    ghost use Rattle.std.specs.Prelude.{List, ◌≡◌};
    ghost use Rattle.std.specs.Coded.{codes};
    ghost use Rattle.type_terms.specs.contracts.term.Owner as owner;
    ghost use Rattle.type_terms.specs.contracts.term.SigType as sig_type;
    ghost use Rattle.assembly_tree.specs.declared.body.Ins.{Ins};
    ghost use Rattle.print_bodies.specs.Offsets.{offsets_from};

    ghost Value = { List Ins };

    ghost coded = { Prim.hlevel (codes, owner.the_row.coded, sig_type.the_row.coded) };

    ghost view = { λ o. o.code.now };

    ghost invariant = { λ o. o.offsets ≡ offsets_from 0 o.code.now };
}

impl<'a> Offsets<'a> {
    /// The offsets of these instructions.
    pub(crate) fn new(alloc: Global, code: &'a [Ins]) -> Result<Offsets<'a>, NoMemory>
        ensures { IfOk result (λ offsets. offsets ≡ code.now) }
    {
        let offsets = offsets_of(alloc, code)?;
        Ok(Offsets { code, offsets })
    }

    /// The offset of an instruction by its number, and that of the end behind the last.
    #[tactic(auto, using(crate::proofs::Counting::offsets_count, crate::proofs::Counting::offsets_at))]
    pub(crate) fn at(&self, number: usize) -> u64
        ensures { result ≡ offset_of self.now number }
    {
        let place = number.min(self.code.len());
        *self.offsets.at(place)
    }

    /// Writes the label of an instruction by its number, or of the end, within a line.
    pub(crate) fn write_label(&self, paper: &mut Paper, number: u32) -> Result<(), NoMemory>
        ensures { OnOk result (paper.new ≡ drawn paper.old (to_label self.now number none)) }
    {
        let offset = self.at(number as usize);
        paper.label(offset)?;
        Ok(())
    }
}

// The offsets of all instructions, and that of the end.
fn offsets_of(alloc: Global, code: &[Ins]) -> Result<Items<u64>, NoMemory>
    ensures { IfOk result (λ offsets. offsets ≡ offsets_from 0 code.now) }
{
    let mut offsets = Items::with_capacity(alloc, code.len() + 1)?;
    let mut offset = 0;
    for ins in code {
        offsets.push(offset)?;
        offset = behind(offset, ins)?;
    }
    offsets.push(offset)?;
    Ok(offsets)
}

/// The offset behind an instruction. More than 2^64 bytes have no room in memory.
pub(crate) fn behind(offset: u64, ins: &Ins) -> Result<u64, NoMemory>
    ensures { IfOk result (λ next. next ≡ offset + size_of ins.now) }
{
    let size = size_of(ins)?;
    if u64::MAX - offset < size {
        return Err(NoMemory);
    }
    Ok(offset + size)
}

// The bytes of an instruction.
#[tactic(auto, unfolding(assembly_tree::specs::WellFormedBodies::size_of))]
fn size_of(ins: &Ins) -> Result<u64, NoMemory>
    ensures { IfOk result (λ size. size ≡ size_of ins.now) }
{
    let operand = size_of_operand(kind_of(ins.op), &ins.operand)?;
    if operand > 0xFF_FFFF_FFFF {
        return Err(NoMemory);
    }
    Ok(opcode_size(ins.op) as u64 + operand)
}

fn size_of_operand(kind: OperandKind, operand: &Operand) -> Result<u64, NoMemory>
    ensures { IfOk result (λ size. size ≡ operand_size kind operand.now) }
{
    match kind {
        OperandKind::Switch => size_of_targets(operand),
        _ => Ok(operand_size(kind) as u64),
    }
}

// The bytes of a switch's operand.
fn size_of_targets(operand: &Operand) -> Result<u64, NoMemory>
    ensures { IfOk result (λ size. size ≡ targets_size operand.now) }
{
    match operand {
        Operand::Targets(targets) => {
            let count = targets.get().len() as u64;
            if count > 0xFFFF_FFFF {
                return Err(NoMemory);
            }
            Ok(4 + 4 * count)
        }
        _ => Ok(4),
    }
}

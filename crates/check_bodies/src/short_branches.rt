//! Short branches that don't reach their targets (ECMA-335 III.1.7.2, III.3.15).

ghost use Rattle.std.specs.Prelude.{◌≡◌, ◌+◌, slice_index_or, IfOk};
ghost use Rattle.std.specs.List.{enumerate_from, flat_map};
ghost use Rattle.assembly_tree.specs.WellFormedBodies.{is_near};
ghost use Rattle.source_model.specs.Bodies.{code};
ghost use Rattle.source_model.specs.BodyFaults.{branch_too_far, branches_too_far};
ghost use Rattle.source_model.specs.Forest.{Part, preorder};
ghost use Rattle.source_model.specs.Instructions.{instructions_of};
ghost use Rattle.source_model.specs.Source.{Source};
ghost use Rattle.source_syntax.specs.Labels.{AreLabels};
ghost use Rattle.source_nodes.specs.Least.{least};
ghost use Rattle.source_nodes.specs.Readers.{Reads};
ghost use Rattle.source_nodes.specs.Walk.{IsForest};
ghost use Rattle.check_bodies.specs.Sizes.{far_from, is_short, short_target, AreOffsets};

use crate::instruction_rules::{InstructionRule, first_in_code};
use crate::sizes::offsets_of;
use check_visitor::ranges::unless;
use il_base::NoMemory;
use ilasm_grammar::{TreeNode, productions};
use opcode_table::{OperandKind, kind_of};
use source_nodes::operations::op_of;
use source_nodes::pieces::{Sought, pieces_of};
use source_nodes::reader::Reader;
use source_nodes::walk::leaf_at;
use source_syntax::label_numbers::Labels;
use source_syntax::methods::{MethodRule, first_in_methods};
use std::alloc::Global;

/// The least label behind a short branch from which one signed byte doesn't lead to it.
pub fn branch_too_far(alloc: Global, reader: &Reader) -> Result<Option<u32>, NoMemory>
    requires { IsForest reader.now.nodes.now }
    ensures { (s : Source) → Reads reader.now s → IfOk result (λ k. k ≡ least (branches_too_far s)) }
{
    let first = first_in_methods(&ShortBranches, alloc, reader)?;
    Ok(first)
}

// Labels behind short branches that don't reach them.
struct ShortBranches;

impl MethodRule for ShortBranches {
    ghost broken = { λ _ s n. flat_map (branch_too_far s n) (enumerate_from 0 (instructions_of n.below)) };

    fn first(
        &self,
        alloc: Global,
        reader: &Reader,
        below: &[TreeNode],
    ) -> Result<Option<u32>, NoMemory> {
        let code = pieces_of(alloc, below, Sought::Instructions)?;
        let labels = Labels::read(alloc, reader, below, code.as_slice())?;
        let offsets = offsets_of(alloc, reader, below, code.as_slice())?;
        let reach = Reach {
            labels: &labels,
            offsets: offsets.as_slice(),
        };
        let first = first_in_code(&reach, alloc, reader, below, code.as_slice())?;
        Ok(first)
    }
}

/// What a method's labels and the offsets of its instructions say of short branches.
#[derive(Clone, Copy)]
pub struct Reach<'a> {
    pub labels: &'a Labels,
    pub offsets: &'a [usize],
}

impl<'a> InstructionRule for Reach<'a> {
    ghost broken = { λ _ s n. branch_too_far s n };

    ghost knows = { λ rule s n. AreLabels rule.labels.now s n.below × AreOffsets rule.offsets.now (code s n.around n.below) };

    fn first(
        &self,
        alloc: Global,
        reader: &Reader,
        number: usize,
        production: u16,
        below: &[TreeNode],
    ) -> Result<Option<u32>, NoMemory> {
        match short_target(reader, production, below) {
            Some(token) => {
                let target = self.labels.number_of(alloc, reader, token)?;
                Ok(far_from(self.offsets, number, target, token))
            }
            None => Ok(None),
        }
    }
}

// The label behind a short branch.
fn short_target(reader: &Reader, production: u16, below: &[TreeNode]) -> Option<u32>
    requires { IsForest below.now }
    ensures { (s : Source) (p : Part) → Reads reader.now s → p.production ≡ production → preorder p.below ≡ below.now → result ≡ short_target s p }
{
    if production == productions::INSTRUCTION_OP_BRANCH && is_short(kind_of(op_of(reader, below))) {
        Some(leaf_at(below, 0))
    } else {
        None
    }
}

fn is_short(kind: OperandKind) -> bool
    ensures { result ≡ is_short kind }
{
    kind == OperandKind::Branch8
}

// A label that stands for this number, unless one byte leads to it from the end of the branch, which has that number.
fn far_from(offsets: &[usize], number: usize, target: Option<usize>, token: u32) -> Option<u32>
    ensures { result ≡ least (far_from offsets.now number target token) }
{
    match target {
        Some(at) => unless(is_near(end_of(offsets, number), offset(offsets, at)), token),
        None => None,
    }
}

// The offset of the instruction with this number, or of the end.
fn offset(offsets: &[usize], number: usize) -> usize
    ensures { result ≡ slice_index_or offsets.now number 0 }
{
    offsets.get(number).copied().unwrap_or(0)
}

// The offset of the end of the instruction with this number.
fn end_of(offsets: &[usize], number: usize) -> usize
    ensures { result ≡ slice_index_or offsets.now (number + 1) 0 }
{
    match offsets {
        [] => 0,
        [_, ends @ ..] => offset(ends, number),
    }
}

// Whether a displacement in one signed byte leads from one offset to another.
fn is_near(from: usize, to: usize) -> bool
    ensures { result ≡ is_near from to }
{
    if to < from {
        from - to <= 0x80
    } else {
        to - from <= 0x7F
    }
}

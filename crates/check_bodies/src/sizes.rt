//! The sizes of instructions as they are written, and where they stand in code (ECMA-335 II.25.4, III.1.2, III.3.66).

ghost use Rattle.std.specs.Prelude.{◌≡◌, ◌+◌, ◌*◌, length, IfOk};
ghost use Rattle.assembly_tree.specs.WellFormedBodies.{size_of};
ghost use Rattle.source_model.specs.Bodies.{code};
ghost use Rattle.source_model.specs.Forest.{Forest, Part, preorder};
ghost use Rattle.source_model.specs.Instructions.{instructions_of};
ghost use Rattle.source_model.specs.Nodes.{Around};
ghost use Rattle.source_model.specs.Operands.{instruction};
ghost use Rattle.source_model.specs.Source.{Source};
ghost use Rattle.source_nodes.specs.Pieces.{ArePieces, AreParts};
ghost use Rattle.source_nodes.specs.Readers.{Reads};
ghost use Rattle.check_bodies.specs.Sizes.{size_by, targets_bytes, AreOffsets};
ghost use Rattle.source_nodes.specs.Walk.{IsForest};

use il_base::{Items, NoMemory};
use ilasm_grammar::{TreeNode, productions};
use opcode_table::{OperandKind, kind_of, opcode_size};
use source_nodes::operations::op_of;
use source_nodes::pieces::{Piece, nodes_of};
use source_nodes::reader::Reader;
use source_syntax::labels::push_targets;
use std::alloc::Global;

/// The code offset of each instruction of a method, and that of the end, from the nodes below its production.
pub fn offsets_of(
    alloc: Global,
    reader: &Reader,
    nodes: &[TreeNode],
    pieces: &[Piece],
) -> Result<Items<usize>, NoMemory>
    requires { AreParts nodes.now pieces.now }
    ensures { (s : Source) (a : Around) (f : Forest) → Reads reader.now s → preorder f ≡ nodes.now → ArePieces nodes.now pieces.now (instructions_of f) →
        IfOk result (λ offsets. AreOffsets offsets (code s a f)) }
{
    past_most(nodes);
    let mut offsets = Items::new(alloc);
    let mut at = 0usize;
    for piece in pieces {
        let below = nodes_of(nodes, *piece);
        let size = size_of(alloc, reader, piece.production, below)?;
        offsets.push(at)?;
        at = at.saturating_add(size);
    }
    offsets.push(at)?;
    Ok(offsets)
}

// The bytes of an instruction.
fn size_of(
    alloc: Global,
    reader: &Reader,
    production: u16,
    below: &[TreeNode],
) -> Result<usize, NoMemory>
    requires { IsForest below.now }
    ensures { (s : Source) (a : Around) (f : Forest) (p : Part) → Reads reader.now s → p.production ≡ production → preorder p.below ≡ below.now →
        IfOk result (λ n. n ≡ size_of (instruction s a f p)) }
{
    past_most(below);
    let op = op_of(reader, below);
    let targets = targets_bytes(alloc, production, below)?;
    Ok(opcode_size(op).saturating_add(size_by(kind_of(op), targets)))
}

// The bytes of an operand of this kind, where targets behind `switch` would take so many.
fn size_by(kind: OperandKind, targets: usize) -> usize
    ensures { result ≡ size_by kind targets }
{
    match kind {
        OperandKind::Nothing => 0,
        OperandKind::Var8 | OperandKind::Num8 | OperandKind::Byte | OperandKind::Branch8 => 1,
        OperandKind::Var16 => 2,
        OperandKind::Num64 | OperandKind::Real8 => 8,
        OperandKind::Switch => targets,
        _ => 4,
    }
}

// The bytes of the targets of an instruction: a count and 4 for each, or 4.
fn targets_bytes(alloc: Global, production: u16, below: &[TreeNode]) -> Result<usize, NoMemory>
    requires { IsForest below.now }
    ensures { (p : Part) → p.production ≡ production → preorder p.below ≡ below.now → IfOk result (λ n. n ≡ targets_bytes p) }
{
    if production != productions::INSTRUCTION_SWITCH {
        return Ok(4);
    }
    past_most(below);
    let mut tokens = Items::new(alloc);
    push_targets(alloc, &mut tokens, production, below)?;
    Ok(tokens.len().saturating_mul(4).saturating_add(4))
}

// More bytes than any code has that so many nodes stand for.
fn past_most(nodes: &[TreeNode]) -> usize
    ensures { result ≡ 14 * length nodes.now + 14 }
{
    nodes.len() * 14 + 14
}

//! The instructions of a method (ECMA-335 II.15.4.1, III.1.2).

ghost use Rattle.std.specs.Prelude.{◌≡◌, ◌<◌, ◌^◌, IfOk, length};
ghost use Rattle.source_model.specs.Bodies.{code};
ghost use Rattle.source_model.specs.Forest.{Forest};
ghost use Rattle.source_model.specs.Instructions.{instructions_of};
ghost use Rattle.source_model.specs.Nodes.{Around};
ghost use Rattle.source_model.specs.Source.{Source};
ghost use Rattle.source_nodes.specs.Pieces.{ArePieces, AreParts};
ghost use Rattle.lower_bodies.specs.BodyPlaces.{IsWithin};
ghost use Rattle.lower_bodies.specs.MethodsInRange.{IsMethodInRange};

use crate::body_places::BodyPlace;
use crate::operands::push_instruction;
use assembly_tree::Code;
use il_base::{Items, NoMemory};
use ilasm_grammar::TreeNode;
use source_nodes::pieces::{Piece, nodes_of};
use std::alloc::Global;

/// The instructions of a method in order, from the nodes below its production and the productions of its instructions.
pub fn code(
    alloc: Global,
    at: &BodyPlace,
    nodes: &[TreeNode],
    found: &[Piece],
) -> Result<Code, NoMemory>
    requires parts { AreParts nodes.now found.now }
    requires few { length nodes.now < 2 ^ 32 }
    ensures { (s : Source) (a : Around) (f : Forest) → IsWithin at.now s a f → IsMethodInRange s f → ArePieces nodes.now found.now (instructions_of f) →
        IfOk result (λ all. all ≡ code s a f) }
{
    let mut all = Items::with_capacity(alloc, found.len())?;
    for piece in found {
        let below = nodes_of(nodes, *piece);
        push_instruction(&mut all, alloc, at, piece.production, below)?;
    }
    Ok(all)
}

//! Rules that are asked of each instruction of a method (ECMA-335 II.15.4.1, III.1.2).

ghost use Rattle.std.specs.Prelude.{◌≡◌, IfOk};
ghost use Rattle.std.specs.List.{enumerate_from, flat_map};
ghost use Rattle.source_model.specs.Instructions.{instructions_of};
ghost use Rattle.source_model.specs.Nodes.{Node};
ghost use Rattle.source_model.specs.Source.{Source};
ghost use Rattle.source_nodes.specs.Derived.{HasBodies};
ghost use Rattle.source_nodes.specs.Least.{least};
ghost use Rattle.source_nodes.specs.Pieces.{ArePieces, AreParts};
ghost use Rattle.source_nodes.specs.Readers.{Reads};

use il_base::NoMemory;
use ilasm_grammar::TreeNode;
use source_nodes::least::sooner;
use source_nodes::pieces::{Piece, nodes_of};
use source_nodes::reader::Reader;
use std::alloc::Global;

/// A rule that each instruction of a method meets or breaks by itself.
pub trait InstructionRule {
    ghost use Rattle.std.specs.Prelude.{◌≡◌, ℕ, List, IfOk};
    ghost use Rattle.source_model.specs.Forest.{Part};
    ghost use Rattle.source_model.specs.Nodes.{Node};
    ghost use Rattle.source_model.specs.Source.{Source};
    ghost use Rattle.source_nodes.specs.Least.{least};
    ghost use Rattle.source_nodes.specs.Readers.{Reads};
    ghost use Rattle.source_nodes.specs.Walk.{IsForest};
    ghost use Rattle.check_bodies.specs.CodeParts.{IsInstruction};

    /// The tokens at which an instruction of a method breaks it, which is given with its number.
    ghost broken: { Self → Source → Node → ℕ × Part → List ℕ };

    /// What the rule knows is what this method has.
    ghost knows: { Self → Source → Node → Type 0 };

    /// The least token at which the instruction with this number breaks it, from its production and the nodes below that.
    fn first(
        &self,
        alloc: Global,
        reader: &Reader,
        number: usize,
        production: u16,
        below: &[TreeNode],
    ) -> Result<Option<u32>, NoMemory>
        requires { IsForest below.now }
        ensures { (s : Source) (n : Node) (p : Part) → Reads reader.now s → knows self.now s n → IsInstruction s n number production below.now p →
            IfOk result (λ k. k ≡ least (broken self.now s n (number, p))) };
}

/// The least token at which one of these instructions of a method breaks a rule.
pub fn first_in_code<R: InstructionRule>(
    rule: &R,
    alloc: Global,
    reader: &Reader,
    nodes: &[TreeNode],
    code: &[Piece],
) -> Result<Option<u32>, NoMemory>
    requires { AreParts nodes.now code.now }
    ensures { (s : Source) (n : Node) → Reads reader.now s → HasBodies s n.below → R.knows rule.now s n → ArePieces nodes.now code.now (instructions_of n.below) →
        IfOk result (λ k. k ≡ least (flat_map (R.broken rule.now s n) (enumerate_from 0 (instructions_of n.below)))) }
{
    let mut found = None;
    for k in 0..code.len() {
        let piece = code[k];
        let below = nodes_of(nodes, piece);
        let here = rule.first(alloc, reader, k, piece.production, below)?;
        found = sooner(found, here);
    }
    Ok(found)
}

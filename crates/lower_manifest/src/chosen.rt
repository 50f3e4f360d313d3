//! Those of some parts that are of a kind.

ghost use Rattle.std.specs.Prelude.{IfOk, List};
ghost use Rattle.ilasm_grammar.specs.declared.tree.TreeNode.{TreeNode};
ghost use Rattle.lower_manifest.specs.Chosen.{are_of};
ghost use Rattle.source_model.specs.Forest.{Part};
ghost use Rattle.source_nodes.specs.Pieces.{ArePieces};

use il_base::{Items, NoMemory};
use source_flags::gathering::{Kind, is_of_kind};
use source_nodes::pieces::Piece;
use std::alloc::Global;

/// Those parts that are of a kind, in order.
pub fn pieces_among(alloc: Global, found: &[Piece], kind: Kind) -> Result<Items<Piece>, NoMemory>
    ensures { (nodes : List TreeNode) (ps : List Part) → ArePieces nodes found.now ps → IfOk result (λ some. ArePieces nodes some (are_of kind ps)) }
{
    let mut some = Items::new(alloc);
    for piece in found {
        if is_of_kind(kind, piece.production) {
            some.push(*piece)?;
        }
    }
    Ok(some)
}

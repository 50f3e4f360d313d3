//! Lines of which the last holds.

ghost use Rattle.std.specs.Prelude.{◌≡◌, ◌-◌, IfOk, List, length, slice_get};
ghost use Rattle.source_flags.specs.Lines.{IsLast, productions_of};
ghost use Rattle.source_model.specs.Forest.{Forest, Part, parts, preorder};
ghost use Rattle.source_nodes.specs.Pieces.{ArePieces};
ghost use Rattle.source_nodes.specs.Walk.{IsForest};

use crate::gathering::{Kind, parts_of};
use il_base::NoMemory;
use ilasm_grammar::TreeNode;
use source_nodes::pieces::{Piece, nodes_of};
use std::alloc::Global;

/// A line: its production, and the nodes below it.
#[derive(Clone, Copy)]
pub struct Line<'a> {
    pub production: u16,
    pub below: &'a [TreeNode],
}

/// The last line of a kind, where there is one.
pub fn last_line<'a>(
    alloc: Global,
    nodes: &'a [TreeNode],
    kind: Kind,
) -> Result<Option<Line<'a>>, NoMemory>
    requires { IsForest nodes.now }
    ensures { (f : Forest) → preorder f ≡ nodes.now → IfOk result (λ line. IsLast line (parts (productions_of kind) f)) }
{
    let found = parts_of(alloc, nodes, kind)?;
    Ok(last_of(nodes, found.as_slice()))
}

/// The last of some parts.
pub fn last_of<'a>(nodes: &'a [TreeNode], found: &[Piece]) -> Option<Line<'a>>
    ensures { (ps : List Part) → ArePieces nodes.now found.now ps → IsLast result ps }
{
    match last_piece(found) {
        Some(piece) => Some(Line {
            production: piece.production,
            below: nodes_of(nodes, piece),
        }),
        None => None,
    }
}

fn last_piece(found: &[Piece]) -> Option<Piece>
    ensures { result ≡ slice_get found.now (length found.now - 1) }
{
    found.last().copied()
}

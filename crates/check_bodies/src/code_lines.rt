//! The instructions of a method and its labels, found in one walk, which also tells whether it says no depth of its stack and has
//! no locals and no clauses (ECMA-335 II.5.4, II.15.4.1), as most have none.

ghost use Rattle.std.specs.Prelude.{◌≡◌, ◌∷◌, ◌++◌, [], IfOk, OnOk};
ghost use Rattle.source_model.specs.Forest.{Forest, preorder};
ghost use Rattle.source_model.specs.Source.{Source};
ghost use Rattle.source_nodes.specs.Derived.{HasBodies};
ghost use Rattle.source_nodes.specs.Pieces.{AreParts};
ghost use Rattle.source_nodes.specs.Walk.{IsForest};
ghost use Rattle.check_bodies.specs.CodeLines.{AreLines, kind_of};

use il_base::{Items, NoMemory};
use ilasm_grammar::TreeNode;
use source_model::{derivations_are_forests, forests_join, forests_open};
use source_nodes::pieces::{Piece, nodes_of};
use source_nodes::walk::leaf_at;
use std::alloc::Global;

/// The productions of the instructions of a method, and the tokens of the names of its labels, each in order.
#[derive(Drop)]
pub struct Lines {
    pub instructions: Items<Piece>,
    pub labels: Items<u32>,
    /// Whether it says no depth of its stack, and has no locals, no clauses, and no ranges with names.
    pub plain: bool,
}

/// Those of a method, from the nodes below its production. An instruction takes four nodes or more, and most take about eight, so
/// there is room for most from the start. What stands in instructions, and before the braces, is gone past.
#[inline(never)]
pub fn lines_in(alloc: Global, nodes: &[TreeNode]) -> Result<Lines, NoMemory>
    requires { IsForest nodes.now }
    ensures parts { IfOk result (λ x. AreParts nodes.now x.instructions) }
    ensures lines { (s : Source) (f : Forest) → preorder f ≡ nodes.now → HasBodies s f → IfOk result (λ x. AreLines nodes.now f x) }
{
    derivations_are_forests();
    forests_open();
    forests_join();
    let mut instructions = Items::with_capacity(alloc, nodes.len() / 8)?;
    let mut labels = Items::new(alloc);
    let mut plain = true;
    let mut at = 0;
    while let Some(node) = nodes.get(at) {
        match *node {
            TreeNode::Branch {
                production,
                nodes: count,
            } => {
                let start = at + 1;
                let kind = kind_of(production);
                if kind == GOES_ON {
                    at = start;
                } else {
                    let count = count as usize;
                    let piece = Piece {
                        production,
                        start,
                        count,
                    };
                    if kind == INSTRUCTION {
                        instructions.push(piece)?;
                        at = start + count;
                    } else if kind == HEAD {
                        at = start + count;
                    } else if kind == LABEL {
                        push_label(&mut labels, leaf_at(nodes_of(nodes, piece), 0))?;
                        at = start + count;
                    } else {
                        plain = false;
                        at = start;
                    }
                }
            }
            TreeNode::Leaf { .. } => at += 1,
        }
    }
    Ok(Lines {
        instructions,
        labels,
        plain,
    })
}

// Adds a label. The first gets room for some more, since most methods with labels have several.
fn push_label(labels: &mut Items<u32>, token: u32) -> Result<(), NoMemory>
    ensures { OnOk result (labels.new ≡ labels.old ++ token ∷ []) }
{
    if labels.is_empty() {
        labels.reserve(4)?;
        labels.push(token)?;
        Ok(())
    } else {
        labels.push(token)?;
        Ok(())
    }
}

// What the walk does at a production: it goes on with what stands below.
const GOES_ON: u8 = 0;
// An instruction, and then what stands behind it.
const INSTRUCTION: u8 = 1;
// The name of a label, and then what stands behind it.
const LABEL: u8 = 2;
// Something before the braces of a method, or a type: what stands behind it is next.
const HEAD: u8 = 4;

// Of each production which of those it is; 3 where it is one of the others, with which a method isn't plain.
static KINDS: [u8; 704] = [
    0, 0, 0, 0, 0, 0, 0, 0, 0, 0, 0, 0, 0, 0, 0, 0, 0, 0, 0, 0, 0, 0, 0, 0, 0, 0, 0, 0, 0, 0, 0, 0,
    0, 0, 0, 0, 0, 0, 0, 0, 0, 0, 0, 4, 0, 0, 0, 0, 0, 0, 0, 0, 0, 4, 0, 0, 0, 0, 0, 0, 0, 0, 0, 0,
    0, 0, 0, 0, 0, 0, 0, 0, 0, 0, 0, 0, 0, 0, 0, 0, 0, 0, 0, 0, 0, 0, 0, 0, 0, 0, 0, 0, 0, 0, 0, 0,
    0, 0, 0, 0, 0, 0, 0, 0, 0, 0, 0, 0, 0, 0, 0, 0, 0, 0, 0, 0, 0, 0, 0, 0, 0, 0, 0, 0, 0, 0, 0, 0,
    0, 0, 0, 0, 0, 0, 0, 0, 0, 0, 0, 0, 0, 0, 0, 0, 0, 0, 0, 0, 0, 0, 0, 0, 0, 0, 0, 0, 0, 0, 0, 0,
    0, 0, 0, 0, 0, 0, 0, 0, 0, 0, 0, 0, 0, 0, 0, 0, 0, 0, 0, 0, 0, 0, 0, 0, 0, 0, 0, 0, 0, 0, 0, 0,
    0, 0, 0, 0, 0, 0, 0, 0, 0, 0, 0, 0, 0, 0, 0, 0, 0, 0, 0, 0, 0, 0, 0, 0, 0, 0, 0, 0, 0, 0, 0, 0,
    0, 0, 0, 0, 0, 0, 0, 0, 0, 0, 0, 0, 0, 0, 0, 0, 0, 0, 0, 0, 0, 0, 0, 0, 0, 0, 0, 0, 0, 0, 0, 0,
    0, 0, 0, 0, 0, 0, 4, 0, 0, 0, 0, 0, 0, 0, 0, 0, 0, 0, 0, 0, 0, 0, 0, 0, 0, 0, 0, 4, 0, 0, 0, 0,
    0, 4, 0, 0, 0, 0, 0, 0, 0, 0, 0, 0, 0, 0, 0, 0, 2, 0, 3, 0, 0, 0, 0, 0, 0, 0, 1, 1, 1, 1, 1, 1,
    1, 1, 1, 1, 1, 0, 0, 0, 0, 0, 0, 0, 0, 0, 0, 0, 0, 0, 0, 0, 0, 0, 0, 0, 0, 0, 0, 0, 0, 0, 0, 0,
    0, 0, 0, 0, 0, 0, 0, 0, 0, 0, 0, 0, 0, 0, 0, 0, 0, 0, 0, 0, 0, 0, 0, 0, 0, 0, 0, 0, 0, 0, 0, 0,
    0, 0, 0, 0, 0, 0, 0, 0, 0, 0, 0, 0, 0, 0, 0, 0, 0, 0, 0, 0, 0, 0, 0, 0, 0, 0, 0, 0, 0, 0, 0, 0,
    0, 0, 0, 0, 0, 0, 0, 0, 0, 0, 0, 0, 0, 0, 0, 0, 0, 0, 0, 0, 0, 0, 0, 0, 0, 0, 0, 0, 0, 0, 0, 0,
    0, 0, 0, 0, 0, 0, 0, 0, 0, 0, 0, 0, 0, 0, 0, 0, 0, 0, 0, 0, 0, 0, 0, 0, 0, 0, 0, 0, 0, 0, 0, 0,
    0, 0, 0, 0, 0, 0, 0, 0, 0, 0, 0, 0, 0, 0, 0, 0, 0, 0, 0, 0, 0, 0, 0, 0, 0, 0, 0, 0, 0, 0, 0, 0,
    0, 0, 0, 0, 0, 0, 0, 0, 0, 0, 0, 0, 0, 0, 0, 0, 0, 0, 0, 0, 0, 0, 0, 0, 0, 0, 0, 0, 0, 0, 0, 0,
    0, 0, 0, 0, 0, 0, 0, 0, 0, 0, 0, 0, 0, 0, 0, 0, 0, 0, 0, 0, 0, 0, 0, 0, 0, 0, 0, 0, 0, 0, 0, 3,
    0, 0, 0, 0, 0, 0, 0, 0, 0, 0, 0, 0, 3, 0, 3, 3, 3, 3, 0, 3, 3, 0, 0, 0, 0, 0, 0, 0, 0, 0, 0, 0,
    0, 0, 0, 0, 0, 0, 0, 0, 0, 0, 0, 0, 0, 0, 0, 0, 0, 0, 0, 0, 0, 0, 0, 0, 0, 0, 0, 0, 0, 0, 0, 0,
    0, 0, 0, 0, 0, 0, 0, 0, 0, 0, 0, 0, 0, 0, 0, 0, 0, 0, 0, 0, 0, 0, 0, 0, 0, 0, 0, 0, 0, 0, 0, 0,
    0, 0, 0, 0, 0, 0, 0, 0, 0, 0, 0, 0, 0, 0, 0, 0, 0, 0, 0, 0, 0, 0, 0, 0, 0, 0, 0, 0, 0, 0, 0, 0,
];

// Which of those a production is.
fn kind_of(production: u16) -> u8
    ensures { result ≡ kind_of production }
{
    if production >= 704 {
        return GOES_ON;
    }
    KINDS[production as usize]
}

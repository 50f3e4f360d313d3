//! The outermost parts of some kinds, and the last of them, where productions in which there are none are gone past.

ghost use Rattle.std.specs.Prelude.{◌≡◌, IfOk};
ghost use Rattle.ilasm_grammar.specs.declared.productions.TheConstants.{CLASS, ITEM_INSTRUCTION, METHOD};
ghost use Rattle.source_flags.specs.Lines.{IsLast, productions_of};
ghost use Rattle.source_flags.specs.Outside.{shut_of};
ghost use Rattle.source_model.specs.Forest.{Forest, is_among, is_any_part, parts_outside, preorder};
ghost use Rattle.source_nodes.specs.Pieces.{ArePieces};
ghost use Rattle.source_nodes.specs.Walk.{IsForest};

use crate::gathering::{Kind, is_of_kind};
use crate::lines::{Line, last_of};
use il_base::{Items, NoMemory};
use ilasm_grammar::{TreeNode, productions};
use source_model::{derivations_are_forests, forests_join, forests_open};
use source_nodes::pieces::Piece;
use std::alloc::Global;

/// Productions that are gone past.
#[derive(Debug, Clone, Copy, PartialEq, Eq, Drop)]
pub enum Shut {
    /// Classes and methods, in which no other assembly is named and the assembly isn't declared.
    Types,
    /// Methods, in which no class and no data stands.
    Methods,
    /// Instructions, in which no item of a method stands.
    Instructions,
}

/// The outermost parts of a kind that stand in none of the shut productions, in order.
pub fn parts_outside(
    alloc: Global,
    nodes: &[TreeNode],
    shut: Shut,
    kind: Kind,
) -> Result<Items<Piece>, NoMemory>
    requires { IsForest nodes.now }
    ensures { IfOk result (λ found. (f : Forest) → preorder f ≡ nodes.now → ArePieces nodes.now found (parts_outside (shut_of shut) (productions_of kind) f)) }
{
    derivations_are_forests();
    forests_open();
    forests_join();
    let mut found = Items::new(alloc);
    let mut at = 0;
    while let Some(node) = nodes.get(at) {
        match *node {
            TreeNode::Branch {
                production,
                nodes: count,
            } => {
                let start = at + 1;
                let count = count as usize;
                if is_of_kind(kind, production) {
                    found.push(Piece {
                        production,
                        start,
                        count,
                    })?;
                    at = start + count;
                } else if is_shut(shut, production) {
                    at = start + count;
                } else {
                    at = start;
                }
            }
            TreeNode::Leaf { .. } => at += 1,
        }
    }
    Ok(found)
}

// Whether a production is shut.
fn is_shut(shut: Shut, production: u16) -> bool
    ensures { result ≡ is_among (shut_of shut) production }
{
    match shut {
        Shut::Types => matches!(production, productions::CLASS | productions::METHOD),
        Shut::Methods => production == productions::METHOD,
        Shut::Instructions => production == productions::ITEM_INSTRUCTION,
    }
}

/// Whether a part of a kind stands in none of the shut productions.
pub fn has_outside(
    alloc: Global,
    nodes: &[TreeNode],
    shut: Shut,
    kind: Kind,
) -> Result<bool, NoMemory>
    requires { IsForest nodes.now }
    ensures { (f : Forest) → preorder f ≡ nodes.now → IfOk result (λ b. b ≡ is_any_part (parts_outside (shut_of shut) (productions_of kind) f)) }
{
    let found = parts_outside(alloc, nodes, shut, kind)?;
    Ok(!found.is_empty())
}

/// The last line of a kind that stands in none of the shut productions, where there is one.
pub fn last_outside<'a>(
    alloc: Global,
    nodes: &'a [TreeNode],
    shut: Shut,
    kind: Kind,
) -> Result<Option<Line<'a>>, NoMemory>
    requires { IsForest nodes.now }
    ensures { (f : Forest) → preorder f ≡ nodes.now → IfOk result (λ line. IsLast line (parts_outside (shut_of shut) (productions_of kind) f)) }
{
    let found = parts_outside(alloc, nodes, shut, kind)?;
    Ok(last_of(nodes, found.as_slice()))
}

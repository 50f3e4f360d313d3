//! The items of a method's body in order, with the begin and the end of each block of `.try` among them (ECMA-335 II.15.4.1,
//! II.19).

ghost use Rattle.std.specs.Prelude.{◌≡◌, ◌-◌, IfOk, List, length, slice_get, take};
ghost use Rattle.ilasm_grammar.specs.declared.tree.TreeNode.{TreeNode};
ghost use Rattle.lower_members.specs.ItemSteps.{branch_step, node_step, step_of, unrolled};
ghost use Rattle.lower_members.specs.declared.item_walks.Open.{Open};
ghost use Rattle.source_model.specs.Forest.{Forest, is_among, preorder};
ghost use Rattle.source_model.specs.Items.{items_and_ends, plain_items};
ghost use Rattle.source_nodes.specs.Pieces.{ArePieces};
ghost use Rattle.source_nodes.specs.Walk.{IsForest};

use il_base::{Items, NoMemory};
use ilasm_grammar::{TreeNode, productions};
use source_model::{derivations_are_forests, forests_join, forests_open};
use source_nodes::pieces::Piece;
use std::alloc::Global;

/// A block that isn't closed yet: its production, and where the nodes behind it begin.
#[derive(Debug, Clone, Copy, Drop)]
pub struct Open {
    pub production: u16,
    pub end: usize,
}

/// What comes next in a walk: the end of a block, a node to go past, an item, or a block to go into.
#[derive(Debug, Clone, Copy, Drop)]
pub enum Step {
    Close(u16),
    Pass,
    Item { production: u16, count: u32 },
    Block { production: u16, count: u32 },
}

/// The items of a method, and the begin and the end of each `.try` and of each of its blocks as pieces without nodes.
pub fn items_and_ends(alloc: Global, nodes: &[TreeNode]) -> Result<Items<Piece>, NoMemory>
    requires { IsForest nodes.now }
    ensures { (f : Forest) → preorder f ≡ nodes.now → IfOk result (λ found. ArePieces nodes.now found (items_and_ends f)) }
{
    derivations_are_forests();
    forests_open();
    forests_join();
    let mut found = Items::new(alloc);
    let mut blocks = Items::new(alloc);
    let mut at = 0;
    while let Some(step) = next_step(nodes, blocks.as_slice(), at) {
        match step {
            Step::Close(production) => {
                found.push(Piece {
                    production,
                    start: at,
                    count: 0,
                })?;
                close_last(&mut blocks);
            }
            Step::Pass => at += 1,
            Step::Item { production, count } => {
                found.push(Piece {
                    production,
                    start: at + 1,
                    count: count as usize,
                })?;
                at = at + 1 + count as usize;
            }
            Step::Block { production, count } => {
                found.push(Piece {
                    production,
                    start: at,
                    count: 0,
                })?;
                blocks.push(Open {
                    production,
                    end: at + 1 + count as usize,
                })?;
                at += 1;
            }
        }
    }
    Ok(found)
}

// What comes next, from the blocks that are open, the innermost last.
fn next_step(nodes: &[TreeNode], blocks: &[Open], at: usize) -> Option<Step>
    ensures { (stack : List Open) → blocks.now ≡ unrolled stack → result ≡ step_of nodes.now stack at }
{
    match innermost(blocks) {
        Some(last) => {
            if last.end == at {
                Some(Step::Close(last.production))
            } else {
                node_step(node_at(nodes, at))
            }
        }
        None => node_step(node_at(nodes, at)),
    }
}

fn innermost(blocks: &[Open]) -> Option<Open>
    ensures { result ≡ slice_get blocks.now (length blocks.now - 1) }
{
    blocks.last().copied()
}

// Takes the last of the open blocks away.
fn close_last(blocks: &mut Items<Open>)
    ensures { blocks.new ≡ take (length blocks.old - 1) blocks.old }
{
    blocks.truncate(blocks.len().saturating_sub(1));
}

fn node_at(nodes: &[TreeNode], at: usize) -> Option<TreeNode>
    ensures { result ≡ slice_get nodes.now at }
{
    nodes.get(at).copied()
}

// What a node is for the walk.
fn node_step(node: Option<TreeNode>) -> Option<Step>
    ensures { result ≡ node_step node }
{
    match node {
        Some(TreeNode::Branch { production, nodes }) => Some(branch_step(production, nodes)),
        Some(TreeNode::Leaf { .. }) => Some(Step::Pass),
        None => None,
    }
}

fn branch_step(production: u16, count: u32) -> Step
    ensures { result ≡ branch_step production count }
{
    if is_plain_item(production) {
        Step::Item { production, count }
    } else if production == productions::ITEM_TRY || production == productions::BLOCK {
        Step::Block { production, count }
    } else {
        Step::Pass
    }
}

// Whether a production is an item that holds no other items.
fn is_plain_item(production: u16) -> bool
    ensures { result ≡ is_among plain_items production }
{
    matches!(
        production,
        productions::ITEM_NAME
            | productions::ITEM_INSTRUCTION
            | productions::ITEM_MAXSTACK
            | productions::ITEM_ENTRYPOINT
            | productions::ITEM_CUSTOM
            | productions::ITEM_LOCALS
            | productions::ITEM_OVERRIDE
            | productions::ITEM_PARAM
    )
}

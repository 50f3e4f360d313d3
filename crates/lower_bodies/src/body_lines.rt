//! The instructions of a method, its labels and what else it holds, found in one walk (ECMA-335 II.5.4, II.15.4.1).

ghost use Rattle.std.specs.Prelude.{◌≡◌, IfOk};
ghost use Rattle.lower_bodies.specs.BodyLines.{AreLines};
ghost use Rattle.lower_bodies.specs.HeldItems.{going_forms, head_forms};
ghost use Rattle.source_model.specs.Forest.{Forest, is_among, preorder};
ghost use Rattle.source_model.specs.Instructions.{instruction_forms};
ghost use Rattle.source_model.specs.Source.{Source};
ghost use Rattle.source_nodes.specs.Derived.{HasBodies};
ghost use Rattle.source_nodes.specs.Pieces.{AreParts};
ghost use Rattle.source_nodes.specs.Walk.{IsForest};

use crate::held::{Held, is_told};
use crate::labels::Labels;
use il_base::{Items, NoMemory};
use ilasm_grammar::{TreeNode, productions};
use source_model::{derivations_are_forests, forests_join, forests_open};
use source_nodes::pieces::{Piece, nodes_of};
use source_nodes::walk::leaf_at;
use std::alloc::Global;

/// The productions of the instructions of a method and the tokens of the names of its labels, each in order, and what else it holds.
#[derive(Drop)]
pub struct Lines {
    pub instructions: Items<Piece>,
    pub labels: Labels,
    pub held: Held,
}

/// Those of a method, from the nodes below its production. An instruction takes four nodes or more, and most take about eight, so
/// there is room for most from the start. What stands in instructions, and before the braces, is gone past.
pub fn lines_in(alloc: Global, nodes: &[TreeNode]) -> Result<Lines, NoMemory>
    requires { IsForest nodes.now }
    ensures parts { IfOk result (λ x. AreParts nodes.now x.instructions) }
    ensures lines { (s : Source) (f : Forest) → preorder f ≡ nodes.now → HasBodies s f → IfOk result (λ x. AreLines nodes.now f x) }
{
    derivations_are_forests();
    forests_open();
    forests_join();
    let mut instructions = Items::with_capacity(alloc, nodes.len() / 8)?;
    let mut labels = Labels::new(alloc);
    let mut held = Held::nothing();
    let mut at = 0;
    while let Some(node) = nodes.get(at) {
        match *node {
            TreeNode::Branch {
                production,
                nodes: count,
            } => {
                let start = at + 1;
                let count = count as usize;
                let piece = Piece {
                    production,
                    start,
                    count,
                };
                at = start;
                if goes_on(production) {
                    at = start;
                } else if is_instruction(production) {
                    instructions.push(piece)?;
                    at = start + count;
                } else if production == productions::ITEM_NAME {
                    labels.push(alloc, leaf_at(nodes_of(nodes, piece), 0))?;
                    at = start + count;
                } else if is_of_head(production) {
                    at = start + count;
                } else if is_told(production) {
                    held = held.with(production);
                }
            }
            TreeNode::Leaf { .. } => at += 1,
        }
    }
    Ok(Lines {
        instructions,
        labels,
        held,
    })
}

// Whether a production goes on with the items of a method, or is the item of an instruction: most are.
fn goes_on(production: u16) -> bool
    ensures { result ≡ is_among going_forms production }
{
    matches!(
        production,
        productions::ITEM_INSTRUCTION | productions::ITEM_STAR_MORE
    )
}

fn is_instruction(production: u16) -> bool
    ensures { result ≡ is_among instruction_forms production }
{
    matches!(
        production,
        productions::INSTRUCTION_OP_NONE
            | productions::INSTRUCTION_OP_VAR
            | productions::INSTRUCTION_OP_NUM
            | productions::INSTRUCTION_OP_REAL
            | productions::INSTRUCTION_OP_BRANCH
            | productions::INSTRUCTION_OP_METHOD
            | productions::INSTRUCTION_OP_FIELD
            | productions::INSTRUCTION_OP_TYPE
            | productions::INSTRUCTION_SWITCH
            | productions::INSTRUCTION_LDSTR
            | productions::INSTRUCTION_LDTOKEN
    )
}

// Whether a production is one before the braces of a method, or a type.
fn is_of_head(production: u16) -> bool
    ensures { result ≡ is_among head_forms production }
{
    matches!(
        production,
        productions::METHOD_ATTR_STAR_MORE
            | productions::CALL_CONV
            | productions::TYPE
            | productions::DEF_ARGS_OPT_SOME
            | productions::IMPL_ATTR_STAR_MORE
    )
}

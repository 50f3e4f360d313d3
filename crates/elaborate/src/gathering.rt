//! The members of classes, gathered for one class after the other in one list (ECMA-335 II.10.1, II.10.2).

ghost use Rattle.std.specs.Prelude.{◌≡◌, IfOk};
ghost use Rattle.elaborate.specs.HeadForms.{head_forms};
ghost use Rattle.source_flags.specs.Lines.{productions_of};
ghost use Rattle.source_flags.specs.declared.gathering.Kind.TheVariants.{Members};
ghost use Rattle.source_model.specs.Forest.{Forest, is_among, parts_outside, preorder};
ghost use Rattle.source_nodes.specs.Pieces.{ArePieces};
ghost use Rattle.source_nodes.specs.Walk.{IsForest};

use il_base::{Items, NoMemory};
use ilasm_grammar::{TreeNode, productions};
use source_flags::gathering::{Kind, is_of_kind};
use source_model::{derivations_are_forests, forests_join, forests_open};
use source_nodes::pieces::Piece;

/// Gathers the members of a class in a list, in place of what it held, from what stands below the class's production. The head of
/// the class is gone past.
pub fn gather_members(found: &mut Items<Piece>, nodes: &[TreeNode]) -> Result<(), NoMemory>
    requires { IsForest nodes.now }
    ensures { IfOk result (λ _. (f : Forest) → preorder f ≡ nodes.now → ArePieces nodes.now found.new (parts_outside head_forms (productions_of Members) f)) }
{
    derivations_are_forests();
    forests_open();
    forests_join();
    found.truncate(0);
    let mut at = 0;
    while let Some(node) = nodes.get(at) {
        match *node {
            TreeNode::Branch {
                production,
                nodes: count,
            } => {
                let start = at + 1;
                let count = count as usize;
                if is_of_kind(Kind::Members, production) {
                    found.push(Piece {
                        production,
                        start,
                        count,
                    })?;
                    at = start + count;
                } else if is_of_head(production) {
                    at = start + count;
                } else {
                    at = start;
                }
            }
            TreeNode::Leaf { .. } => at += 1,
        }
    }
    Ok(())
}

// Whether a production stands in the head of a class, and no member in it.
fn is_of_head(production: u16) -> bool
    ensures { result ≡ is_among head_forms production }
{
    matches!(
        production,
        productions::CLASS_ATTR_STAR_MORE
            | productions::TYPARS_OPT_SOME
            | productions::EXTENDS_OPT_SOME
            | productions::IMPLEMENTS_OPT_SOME
    )
}

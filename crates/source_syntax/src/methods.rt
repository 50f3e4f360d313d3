//! The methods of a source, and rules that are asked of each of them.

ghost use Rattle.std.specs.Prelude.{◌≡◌, IfOk};
ghost use Rattle.std.specs.List.{flat_map};
ghost use Rattle.source_model.specs.BodyFaults.{all_methods};
ghost use Rattle.source_model.specs.Forest.{Forest, preorder};
ghost use Rattle.source_model.specs.Source.{Source};
ghost use Rattle.source_nodes.specs.Least.{least};
ghost use Rattle.source_syntax.specs.Methods.{all_below, AreBelow};
ghost use Rattle.source_nodes.specs.Readers.{Reads};
ghost use Rattle.source_nodes.specs.Walk.{IsForest};

use il_base::{Items, NoMemory};
use ilasm_grammar::{TreeNode, productions};
use source_model::{derivations_are_forests, forests_join, forests_open, tokens_stand_in_order};
use source_nodes::derived::derivations_have_bodies;
use source_nodes::least::sooner;
use source_nodes::pieces::{Piece, nodes_of};
use source_nodes::reader::Reader;
use std::alloc::Global;

/// A rule that each method of a source meets or breaks by itself.
pub trait MethodRule {
    ghost use Rattle.std.specs.Prelude.{◌≡◌, ℕ, List, IfOk};
    ghost use Rattle.source_model.specs.Forest.{preorder};
    ghost use Rattle.source_model.specs.Nodes.{Node};
    ghost use Rattle.source_model.specs.Source.{Source};
    ghost use Rattle.source_nodes.specs.Least.{least};
    ghost use Rattle.source_syntax.specs.Methods.{IsMethod};
    ghost use Rattle.source_nodes.specs.Readers.{Reads};
    ghost use Rattle.source_nodes.specs.Walk.{IsForest};

    /// The tokens at which a method breaks it.
    ghost broken: { Self → Source → Node → List ℕ };

    /// The least token at which a method breaks it, from the nodes below its production.
    fn first(
        &self,
        alloc: Global,
        reader: &Reader,
        below: &[TreeNode],
    ) -> Result<Option<u32>, NoMemory>
        requires { IsForest below.now }
        ensures { (s : Source) (n : Node) → Reads reader.now s → IsMethod s n → preorder n.below ≡ below.now → IfOk result (λ k. k ≡ least (broken self.now s n)) };
}

/// The least token at which a method of a source breaks a rule.
pub fn first_in_methods<R: MethodRule>(
    rule: &R,
    alloc: Global,
    reader: &Reader,
) -> Result<Option<u32>, NoMemory>
    requires { IsForest reader.now.nodes.now }
    ensures { (s : Source) → Reads reader.now s → IfOk result (λ k. k ≡ least (flat_map (R.broken rule.now s) (all_methods s))) }
{
    derivations_have_bodies();
    tokens_stand_in_order();
    let methods = all_below(alloc, reader.nodes, productions::METHOD)?;
    let mut found = None;
    for method in methods.as_slice() {
        let here = rule.first(alloc, reader, nodes_of(reader.nodes, *method))?;
        found = sooner(found, here);
    }
    Ok(found)
}

// All branches with this production, in preorder, also those below others.
fn all_below(alloc: Global, nodes: &[TreeNode], production: u16) -> Result<Items<Piece>, NoMemory>
    requires { IsForest nodes.now }
    ensures { IfOk result (λ found. (f : Forest) → preorder f ≡ nodes.now → AreBelow nodes.now found (all_below production f)) }
{
    derivations_are_forests();
    forests_open();
    forests_join();
    let mut found = Items::new(alloc);
    let mut at = 0;
    while let Some(node) = nodes.get(at) {
        match *node {
            TreeNode::Branch {
                production: p,
                nodes: count,
            } => {
                let start = at + 1;
                if p == production {
                    found.push(Piece {
                        production,
                        start,
                        count: count as usize,
                    })?;
                    at = start;
                } else {
                    at = start;
                }
            }
            TreeNode::Leaf { .. } => at += 1,
        }
    }
    Ok(found)
}

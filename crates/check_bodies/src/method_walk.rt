//! The methods of a source, each asked for what breaks a rule as soon as it is found.

ghost use Rattle.std.specs.Prelude.{◌≡◌, IfOk, List};
ghost use Rattle.std.specs.List.{flat_map};
ghost use Rattle.source_model.specs.Forest.{Forest, preorder};
ghost use Rattle.source_model.specs.Nodes.{Node};
ghost use Rattle.source_model.specs.Source.{Source};
ghost use Rattle.source_nodes.specs.Least.{least};
ghost use Rattle.source_nodes.specs.Readers.{Reads};
ghost use Rattle.source_nodes.specs.Walk.{IsForest};
ghost use Rattle.check_bodies.specs.AmongNodes.{AreMethodsOf};

use il_base::NoMemory;
use ilasm_grammar::{TreeNode, productions};
use source_model::{derivations_are_forests, forests_join, forests_open};
use source_nodes::least::sooner;
use source_nodes::reader::Reader;
use source_nodes::walk::next;
use source_syntax::methods::MethodRule;
use std::alloc::Global;

/// The least token at which a method among these nodes of a source breaks a rule. What stands below a method, where there is no
/// other, is looked at by the rule alone.
pub fn first_by_method<R: MethodRule>(
    rule: &R,
    alloc: Global,
    reader: &Reader,
    nodes: &[TreeNode],
) -> Result<Option<u32>, NoMemory>
    requires { IsForest nodes.now }
    ensures { (s : Source) (f : Forest) (ms : List Node) → Reads reader.now s → preorder f ≡ nodes.now → AreMethodsOf s f ms →
        IfOk result (λ k. k ≡ least (flat_map (R.broken rule.now s) ms)) }
{
    derivations_are_forests();
    forests_open();
    forests_join();
    let mut left = nodes;
    let mut found = None;
    while let Some((node, rest)) = next(left) {
        match node {
            TreeNode::Branch {
                production,
                nodes: count,
            } => {
                if production == productions::METHOD {
                    let (below, after) = rest.split_at(count as usize);
                    let here = rule.first(alloc, reader, below)?;
                    found = sooner(found, here);
                    left = after;
                } else {
                    left = rest;
                }
            }
            TreeNode::Leaf { .. } => left = rest,
        }
    }
    Ok(found)
}

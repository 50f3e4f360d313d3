//! Whether the signature of a member breaks a rule of its own (ECMA-335 II.23.2).

ghost use Rattle.std.specs.Prelude.{◌≡◌, not, IfOk};
ghost use Rattle.source_model.specs.Forest.{Forest, chosen, preorder};
ghost use Rattle.source_model.specs.Nodes.{Around};
ghost use Rattle.source_model.specs.Source.{Source};
ghost use Rattle.source_model.specs.TypeRules.{is_nothing};
ghost use Rattle.source_nodes.specs.Derived.{HasBodies};
ghost use Rattle.source_nodes.specs.Readers.{Reads};
ghost use Rattle.source_nodes.specs.Walk.{IsForest};
ghost use Rattle.check_members.specs.MemberKinds.{signature_parts};
ghost use Rattle.check_visitor.specs.Surroundings.{HasParameters, IsSurrounding, found_in};

use crate::member_kinds::Kind;
use check_visitor::asking::{Rule, Surrounding, first_in};
use il_base::NoMemory;
use ilasm_grammar::TreeNode;
use source_model::{derivations_are_forests, forests_open};
use source_nodes::reader::Reader;
use source_nodes::walk::next;
use std::alloc::Global;

/// Whether no production of a member's signature breaks a rule.
pub fn keeps<R: Rule>(
    rule: &R,
    alloc: Global,
    reader: &Reader,
    place: &Surrounding,
    kind: Kind,
    nodes: &[TreeNode],
) -> Result<bool, NoMemory>
    requires { IsForest nodes.now }
    ensures { (s : Source) (a : Around) (f : Forest) → Reads reader.now s → IsSurrounding place.now a → HasParameters s place.now a → preorder f ≡ nodes.now → HasBodies s f →
        IfOk result (λ b. b ≡ is_nothing (found_in (R.broken rule.now) s a (chosen (signature_parts kind) f))) }
{
    derivations_are_forests();
    forests_open();
    let mut left = nodes;
    while let Some((node, rest)) = next(left) {
        match node {
            TreeNode::Branch {
                production,
                nodes: count,
            } => {
                let (tree, after) = left.split_at(1 + count as usize);
                if kind.is_in_signature(production) {
                    if breaks(rule, alloc, reader, place, tree)? {
                        return Ok(false);
                    }
                    left = after;
                } else {
                    left = after;
                }
            }
            TreeNode::Leaf { .. } => left = rest,
        }
    }
    Ok(true)
}

// Whether a production of a forest breaks a rule.
fn breaks<R: Rule>(
    rule: &R,
    alloc: Global,
    reader: &Reader,
    place: &Surrounding,
    nodes: &[TreeNode],
) -> Result<bool, NoMemory>
    requires { IsForest nodes.now }
    ensures { (s : Source) (a : Around) (f : Forest) → Reads reader.now s → IsSurrounding place.now a → HasParameters s place.now a → preorder f ≡ nodes.now → HasBodies s f →
        IfOk result (λ b. b ≡ not (is_nothing (found_in (R.broken rule.now) s a f))) }
{
    let first = first_in(rule, alloc, reader, place, nodes)?;
    Ok(first.is_some())
}

//! The rules that are asked together, in one pass over a source: of each declaration all of them, while its nodes and tokens are at
//! hand.

ghost use Rattle.std.specs.Prelude.{◌≡◌, ◌<◌, ◌^◌, IfOk, List, length};
ghost use Rattle.std.specs.List.{list_any};
ghost use Rattle.ilasm_grammar.specs.declared.tree.TreeNode.{TreeNode};
ghost use Rattle.check_members.specs.BrokenSignatures.{part_broken};
ghost use Rattle.check_members.specs.MemberKinds.{is_chosen};
ghost use Rattle.source_model.specs.DeclaredTwice.{members_twice_in};
ghost use Rattle.source_model.specs.Forest.{Forest, preorder};
ghost use Rattle.source_model.specs.Items.{declarations};
ghost use Rattle.source_model.specs.Nodes.{Node, nothing_around};
ghost use Rattle.source_model.specs.Source.{Source};
ghost use Rattle.source_model.specs.TypeRules.{breaks_signature, is_nothing};
ghost use Rattle.source_nodes.specs.Least.{least};
ghost use Rattle.source_syntax.specs.Namings.{AreNames};
ghost use Rattle.source_nodes.specs.Readers.{Reads};
ghost use Rattle.source_nodes.specs.Walk.{IsForest};
ghost use Rattle.source_syntax.specs.declared.name_lists.Naming.TheVariants as naming;
ghost use Rattle.check_bodies.specs.AmongNodes.{StandsIn};
ghost use Rattle.check_source.specs.AllDeclared.{AreDeclarations};
ghost use Rattle.check_source.specs.Census.{IsCensus};
ghost use Rattle.check_source.specs.Passes.{broken_among, broken_in_passes, is_outer, outer_members};

use crate::all_declared::Declarations;
use crate::census::Census;
use check_bodies::bodies::body_fault;
use check_members::broken_signatures::{BrokenSignatures, signatures_of};
use check_members::member_rules::{inner_twice, outer_twice};
use check_names::parts::part_fault;
use il_base::NoMemory;
use ilasm_grammar::{TreeNode, productions};
use source_model::{derivations_are_forests, forests_join, forests_open, tokens_stand_in_order};
use source_nodes::derived::derivations_have_bodies;
use source_nodes::least::sooner;
use source_nodes::reader::Reader;
use source_nodes::walk::next;
use source_syntax::name_lists::Named;
use std::alloc::Global;
use type_terms::orders_are_total;

/// The least token at which one of these rules is broken. Where there is none, none of them is asked again.
pub fn pass_fault(
    alloc: Global,
    reader: &Reader,
    declared: &Declarations,
) -> Result<Option<u32>, NoMemory>
    requires forest { IsForest reader.now.nodes.now }
    requires few { length reader.now.nodes.now < 2 ^ 32 }
    ensures { (s : Source) → Reads reader.now s → AreDeclarations s declared.now → IfOk result (λ k. k ≡ least (broken_in_passes s)) }
{
    derivations_have_bodies();
    tokens_stand_in_order();
    let Declarations {
        externs,
        own,
        classes,
        census,
        ..
    } = declared;
    let rule = signatures_of(externs, own, classes);
    let outer = outer_fault(&rule, alloc, reader, externs, own, census)?;
    let inner = declaration_fault(alloc, reader, declared)?;
    Ok(sooner(inner, outer))
}

// The least token of a member of no class that is declared twice.
fn outer_fault(
    rule: &BrokenSignatures,
    alloc: Global,
    reader: &Reader,
    externs: &Named,
    own: &Named,
    census: &Census,
) -> Result<Option<u32>, NoMemory>
    requires forest { IsForest reader.now.nodes.now }
    requires few { length reader.now.nodes.now < 2 ^ 32 }
    ensures { (s : Source) → Reads reader.now s → AreNames s naming.Assembly externs.now → AreNames s naming.Own own.now → IsCensus (preorder s.tree) census.now →
        ((n : Node) → is_nothing (part_broken rule.now.types.scopes.keys.now rule.now.types.scopes.own.now rule.now.types.classes.now s n) ≡ is_nothing (breaks_signature s n)) →
        IfOk result (λ k. k ≡ least (members_twice_in s nothing_around (declarations s.tree))) }
{
    orders_are_total();
    if !has_outer_members(census) {
        return Ok(None);
    }
    let first = outer_twice(rule, alloc, reader, externs, own)?;
    Ok(first)
}

// Whether there is a field or a method outside of any class.
fn has_outer_members(census: &Census) -> bool
    ensures { (nodes : List TreeNode) → IsCensus nodes census.now → result ≡ list_any (is_chosen outer_members) nodes }
{
    let fields = census.count(productions::DECL_FIELD);
    let methods = census.count(productions::DECL_METHOD);
    fields > 0 || methods > 0
}

// The least token at which one of the rules is broken among the declarations, but for members of no class that are declared twice.
fn declaration_fault(
    alloc: Global,
    reader: &Reader,
    declared: &Declarations,
) -> Result<Option<u32>, NoMemory>
    requires forest { IsForest reader.now.nodes.now }
    requires few { length reader.now.nodes.now < 2 ^ 32 }
    ensures { (s : Source) → Reads reader.now s → AreDeclarations s declared.now → StandsIn s s.tree → IfOk result (λ k. k ≡ least (broken_among s declared.now s.tree)) }
{
    derivations_are_forests();
    forests_open();
    forests_join();
    let mut left = reader.nodes;
    let mut found = None;
    while let Some((node, rest)) = next(left) {
        match node {
            TreeNode::Branch {
                production,
                nodes: count,
            } => {
                if is_outer(production) {
                    left = rest;
                } else {
                    let (first, after) = left.split_at(count as usize + 1);
                    let here = tree_fault(alloc, reader, declared, first)?;
                    found = sooner(found, here);
                    left = after;
                }
            }
            TreeNode::Leaf { .. } => left = rest,
        }
    }
    Ok(found)
}

// Whether a production is that of a source, or of a list of declarations, of which no rule speaks.
fn is_outer(production: u16) -> bool
    ensures { result ≡ is_outer production }
{
    production == productions::SOURCE || production == productions::DECL_STAR_MORE
}

// The same among these nodes, which stand in no class and no method.
fn tree_fault(
    alloc: Global,
    reader: &Reader,
    declared: &Declarations,
    nodes: &[TreeNode],
) -> Result<Option<u32>, NoMemory>
    requires forest { IsForest nodes.now }
    requires few { length reader.now.nodes.now < 2 ^ 32 }
    ensures { (s : Source) (f : Forest) → Reads reader.now s → AreDeclarations s declared.now → preorder f ≡ nodes.now → StandsIn s f →
        IfOk result (λ k. k ≡ least (broken_among s declared.now f)) }
{
    let Declarations {
        labels,
        externs,
        own,
        classes,
        ..
    } = declared;
    let rule = signatures_of(externs, own, classes);
    let bodies = body_fault(alloc, reader, nodes)?;
    let parts = part_fault(alloc, reader, externs, own, classes, labels, nodes)?;
    let members = inner_twice(&rule, alloc, reader, externs, own, nodes)?;
    let to_parts = sooner(bodies, parts);
    Ok(sooner(to_parts, members))
}

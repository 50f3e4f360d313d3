//! The exception clauses of a method (ECMA-335 II.15.4.1, II.19, II.25.4.6).

ghost use Rattle.std.specs.Prelude.{◌≡◌, ◌++◌, IfOk, MatchOption, map};
ghost use Rattle.source_model.specs.Clauses.{clause, clause_forms, clause_kind, clauses, guarded_in};
ghost use Rattle.source_model.specs.Forest.{Forest, is_among, part, preorder};
ghost use Rattle.source_model.specs.Nodes.{Around};
ghost use Rattle.source_model.specs.Source.{Source};
ghost use Rattle.source_flags.specs.InRange.{AllInRange};
ghost use Rattle.source_nodes.specs.Walk.{IsForest};
ghost use Rattle.lower_bodies.specs.BodyPlaces.{IsWithin};
ghost use Rattle.lower_bodies.specs.ClauseNodes.{IsClause, IsNoClause};

use crate::body_places::BodyPlace;
use crate::clause_ranges::{filter_start, handler_range, try_range};
use assembly_tree::{Clause, ClauseKind, Clauses};
use il_base::{Items, NoMemory};
use ilasm_grammar::{TreeNode, productions};
use source_model::forests_join;
use source_nodes::walk::{is_of, open};
use std::alloc::Global;

/// The exception clauses of a method in the order of their last tokens, from the nodes below the method's production.
pub fn clauses(alloc: Global, at: &BodyPlace, nodes: &[TreeNode]) -> Result<Clauses, NoMemory>
    requires { IsForest nodes.now }
    ensures { (s : Source) (a : Around) (f : Forest) → IsWithin at.now s a f → preorder f ≡ nodes.now → AllInRange s f → IfOk result (λ all. all ≡ clauses s a f) }
{
    let mut found = Items::new(alloc);
    push_clauses(&mut found, alloc, at, &[], nodes)?;
    Ok(found)
}

// Pushes the clauses of a forest; `tried` are the nodes below the innermost `.try` around it.
fn push_clauses(
    found: &mut Clauses,
    alloc: Global,
    at: &BodyPlace,
    tried: &[TreeNode],
    nodes: &[TreeNode],
) -> Result<(), NoMemory>
    requires tried { IsForest tried.now }
    requires nodes { IsForest nodes.now }
    ensures { (s : Source) (a : Around) (f t g : Forest) → IsWithin at.now s a f → preorder t ≡ tried.now → AllInRange s t → preorder g ≡ nodes.now → AllInRange s g →
        IfOk result (λ _. found.new ≡ found.old ++ map (clause s a f) (guarded_in t g)) }
{
    forests_join();
    let mut left = nodes;
    while let Some(x) = open(left) {
        if is_of(x.node, productions::ITEM_TRY) {
            push_clauses(found, alloc, at, x.below, x.below)?;
            left = x.after;
        } else if is_of(x.node, productions::ITEM_INSTRUCTION) {
            left = x.after;
        } else if let Some(production) = clause_form(x.node) {
            push_clauses(found, alloc, at, tried, x.below)?;
            let one = clause(alloc, at, tried, production, x.below)?;
            found.push(one)?;
            left = x.after;
        } else {
            left = x.behind;
        }
    }
    Ok(())
}

// The production of a node that is a clause.
fn clause_form(node: TreeNode) -> Option<u16>
    ensures { MatchOption result (IsNoClause node) (λ p. IsClause node p) }
{
    match node {
        TreeNode::Branch { production, .. } => {
            if is_clause(production) {
                Some(production)
            } else {
                None
            }
        }
        TreeNode::Leaf { .. } => None,
    }
}

/// Whether a production is a clause.
pub fn is_clause(production: u16) -> bool
    ensures { result ≡ is_among clause_forms production }
{
    matches!(
        production,
        productions::CLAUSE_CATCH
            | productions::CLAUSE_FILTER
            | productions::CLAUSE_FINALLY
            | productions::CLAUSE_FAULT
    )
}

// A clause of the `.try` below which `tried` stands, from its production and the nodes below that.
fn clause(
    alloc: Global,
    at: &BodyPlace,
    tried: &[TreeNode],
    production: u16,
    below: &[TreeNode],
) -> Result<Clause, NoMemory>
    requires tried { IsForest tried.now }
    requires below { IsForest below.now }
    ensures { (s : Source) (a : Around) (f t b : Forest) → IsWithin at.now s a f → preorder t ≡ tried.now → AllInRange s t → preorder b ≡ below.now → AllInRange s b →
        IfOk result (λ c. c ≡ clause s a f (record { tried = t; clause = part production b })) }
{
    let guarded = try_range(alloc, &at.code, tried)?;
    let handler = handler_range(alloc, &at.code, below)?;
    let kind = clause_kind(alloc, at, production, below)?;
    Ok(Clause {
        kind,
        try_start: guarded.start,
        try_end: guarded.end,
        handler_start: handler.start,
        handler_end: handler.end,
    })
}

// What a clause handles.
fn clause_kind(
    alloc: Global,
    at: &BodyPlace,
    production: u16,
    below: &[TreeNode],
) -> Result<ClauseKind, NoMemory>
    requires { IsForest below.now }
    ensures { (s : Source) (a : Around) (f b : Forest) → IsWithin at.now s a f → preorder b ≡ below.now → AllInRange s b →
        IfOk result (λ kind. kind ≡ clause_kind s a f (part production b)) }
{
    match production {
        productions::CLAUSE_CATCH => {
            let owner = at.place.first_owner(alloc, below)?;
            Ok(ClauseKind::Catch(owner))
        }
        productions::CLAUSE_FILTER => {
            let start = filter_start(alloc, &at.code, below)?;
            Ok(ClauseKind::Filter(start))
        }
        productions::CLAUSE_FINALLY => Ok(ClauseKind::Finally),
        _ => Ok(ClauseKind::Fault),
    }
}

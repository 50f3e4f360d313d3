//! Exception clauses whose ranges are empty or run backwards (ECMA-335 II.19, II.25.4.6).

ghost use Rattle.std.specs.Prelude.{◌≡◌, IfOk};
ghost use Rattle.std.specs.List.{flat_map};
ghost use Rattle.source_model.specs.BodyFaults.{clause_backwards, clauses_backwards};
ghost use Rattle.source_model.specs.Clauses.{clause_forms, guarded, guarded_in};
ghost use Rattle.source_model.specs.Forest.{Forest, is_among, preorder};
ghost use Rattle.source_model.specs.Nodes.{Node};
ghost use Rattle.source_model.specs.Source.{Source};
ghost use Rattle.source_nodes.specs.Derived.{HasBodies};
ghost use Rattle.source_nodes.specs.Least.{least};
ghost use Rattle.source_nodes.specs.Readers.{Reads};
ghost use Rattle.source_nodes.specs.Walk.{IsForest};
ghost use Rattle.check_bodies.specs.CodePlaces.{ArePlaces};
ghost use Rattle.check_bodies.specs.Ranges.{backwards_at, filter_of, is_forward_in, starts_before};

use crate::clause_ranges::{CodeRange, filter_start, handler_range, try_range};
use crate::code_places::CodePlaces;
use check_visitor::ranges::unless;
use il_base::NoMemory;
use ilasm_grammar::{TreeNode, productions};
use source_model::{derivations_are_forests, forests_join, forests_open};
use source_nodes::least::sooner;
use source_nodes::reader::Reader;
use source_nodes::walk::{first_token, next};
use source_syntax::methods::{MethodRule, first_in_methods};
use std::alloc::Global;

/// The least first token of a clause of which a range is empty or backwards, or whose filter doesn't start before its handler.
pub fn clause_backwards(alloc: Global, reader: &Reader) -> Result<Option<u32>, NoMemory>
    requires { IsForest reader.now.nodes.now }
    ensures { (s : Source) → Reads reader.now s → IfOk result (λ k. k ≡ least (clauses_backwards s)) }
{
    let first = first_in_methods(&ForwardClauses, alloc, reader)?;
    Ok(first)
}

// Clauses run forward.
struct ForwardClauses;

impl MethodRule for ForwardClauses {
    ghost broken = { λ _ s n. flat_map (clause_backwards s n) (guarded n.below) };

    fn first(
        &self,
        alloc: Global,
        reader: &Reader,
        below: &[TreeNode],
    ) -> Result<Option<u32>, NoMemory> {
        let places = CodePlaces::read(alloc, reader, below)?;
        first_backwards(&places, alloc, reader, &[], below)
    }
}

/// The least first token of a clause among these nodes that isn't forward; `tried` are the nodes below the innermost `.try`
/// around them.
pub fn first_backwards(
    places: &CodePlaces,
    alloc: Global,
    reader: &Reader,
    tried: &[TreeNode],
    nodes: &[TreeNode],
) -> Result<Option<u32>, NoMemory>
    requires tried { IsForest tried.now }
    requires nodes { IsForest nodes.now }
    ensures { (s : Source) (n : Node) (t f : Forest) → Reads reader.now s → ArePlaces places.now s n.below → HasBodies s t → HasBodies s f →
        preorder t ≡ tried.now → preorder f ≡ nodes.now → IfOk result (λ k. k ≡ least (flat_map (clause_backwards s n) (guarded_in t f))) }
{
    derivations_are_forests();
    forests_open();
    forests_join();
    let mut left = nodes;
    let mut found = None;
    while let Some((node, rest)) = next(left) {
        match node {
            TreeNode::Branch {
                production,
                nodes: count,
            } => {
                let (below, after) = rest.split_at(count as usize);
                if production == productions::ITEM_TRY {
                    let within = first_backwards(places, alloc, reader, below, below)?;
                    found = sooner(found, within);
                    left = after;
                } else {
                    let here = backwards_at(places, alloc, reader, tried, production, below)?;
                    found = sooner(found, here);
                    left = rest;
                }
            }
            TreeNode::Leaf { .. } => left = rest,
        }
    }
    Ok(found)
}

// The first token of a clause that isn't forward, where this production is one.
fn backwards_at(
    places: &CodePlaces,
    alloc: Global,
    reader: &Reader,
    tried: &[TreeNode],
    production: u16,
    below: &[TreeNode],
) -> Result<Option<u32>, NoMemory>
    requires tried { IsForest tried.now }
    requires below { IsForest below.now }
    ensures { (s : Source) (n : Node) (t b : Forest) → Reads reader.now s → ArePlaces places.now s n.below → HasBodies s t → HasBodies s b →
        preorder t ≡ tried.now → preorder b ≡ below.now → IfOk result (λ k. k ≡ least (backwards_at s n t production b)) }
{
    if is_clause(production) {
        let guarded = try_range(places, alloc, reader, tried)?;
        let handler = handler_range(places, alloc, reader, below)?;
        let filter = filter_of(places, alloc, reader, production, below)?;
        let token = first_token(below);
        Ok(unless(is_forward(guarded, handler, filter), token))
    } else {
        Ok(None)
    }
}

/// Whether a production is a clause.
pub fn is_clause(production: u16) -> bool
    ensures { result ≡ is_among clause_forms production }
{
    matches!(
        production,
        productions::CLAUSE_CATCH
            | productions::CLAUSE_FILTER
            | productions::CLAUSE_FINALLY
            | productions::CLAUSE_FAULT
    )
}

// Where the filter of a clause starts, where it has one.
fn filter_of(
    places: &CodePlaces,
    alloc: Global,
    reader: &Reader,
    production: u16,
    clause: &[TreeNode],
) -> Result<Option<usize>, NoMemory>
    requires { IsForest clause.now }
    ensures { (s : Source) (f c : Forest) → Reads reader.now s → ArePlaces places.now s f → HasBodies s c → preorder c ≡ clause.now →
        IfOk result (λ k. k ≡ filter_of s f production c) }
{
    match production {
        productions::CLAUSE_FILTER => {
            let start = filter_start(places, alloc, reader, clause)?;
            Ok(Some(start))
        }
        _ => Ok(None),
    }
}

// Whether neither range is empty or backwards, and the filter starts before the handler.
fn is_forward(tried: CodeRange, handler: CodeRange, filter: Option<usize>) -> bool
    ensures { result ≡ is_forward_in tried handler filter }
{
    tried.start < tried.end && handler.start < handler.end && starts_before(filter, handler.start)
}

fn starts_before(filter: Option<usize>, handler: usize) -> bool
    ensures { result ≡ starts_before filter handler }
{
    match filter {
        Some(start) => start < handler,
        None => true,
    }
}

ghost use Rattle.std.specs.Prelude.{◌≡◌, ◌+◌, ◌-◌, ◌^◌, ◌≤◌, ◌<◌, ℕ, List, IfOk, length};
ghost use Rattle.image_model.specs.Structure.{max_path, HasScopes};
ghost use Rattle.type_names.specs.Numbers.{IsNode, NodeNames};
ghost use Rattle.type_terms.specs.declared.name.Scope.{Scope};
ghost use Rattle.type_terms.specs.declared.name.TypeId.{TypeId};
ghost use Rattle.name_weights.specs.Weights.{AreWeights, AreWeighed, HasLevel, IsDeepest, named_count};

use crate::parts::{Given, part_of};
use il_base::NoMemory;
use std::alloc::Global;

/// How many names a path may have.
const MAX_PATH: u8 = 100;

/// The weights of an image's types and references by their nodes; that of node 0 is 0.
pub(crate) fn weights_of(alloc: Global, given: &Given<'_, '_>) -> Result<Vec<u32>, NoMemory>
    requires { (table row : ℕ) → HasScopes given.now.image table row }
    ensures { IfOk result (λ weights. AreWeights given.now.image weights.items) }
{
    let count = named_count(given);
    let mut weights = Vec::from_elem(alloc, 0, count + 1)?;
    let levels = deepest(given, count).min(MAX_PATH);
    paths_are_short(given);
    for level in 0..levels {
        weigh_level(given, weights.as_mut_slice(), level + 1, count);
    }
    Ok(weights)
}

/// How many types and references there are.
fn named_count(given: &Given<'_, '_>) -> usize
    ensures count { result ≡ named_count given.now.image }
    ensures small { result < 2 ^ 32 }
{
    let tables = given.image.tables();
    tables.rows(0x02) as usize + tables.rows(0x01) as usize
}

/// A law: where nesting and scopes are right, no path has more than 100 names.
fn paths_are_short(given: &Given<'_, '_>)
    requires { (table row : ℕ) → HasScopes given.now.image table row }
    ensures { (k : ℕ) (scope : Scope) (path : List TypeId) → IsNode given.now.image k → NodeNames given.now.image k scope path → length path ≤ max_path }
{
    given.names.tell_names();
}

/// How many names the longest path has of those with at most 100.
fn deepest(given: &Given<'_, '_>, count: usize) -> u8
    requires { count ≡ named_count given.now.image }
    ensures { IsDeepest given.now.image result (count + 1) }
{
    let mut deepest = 0;
    for k in 0..count {
        deepest = level_of(given, k + 1).max(deepest);
    }
    deepest
}

/// How many names the path of a node has.
fn level_of(given: &Given<'_, '_>, k: usize) -> u8
    requires { IsNode given.now.image k }
    ensures { HasLevel given.now.image k result }
{
    let types = given.image.tables().rows(0x02) as usize;
    given.names.tell_names();
    if k <= types {
        given.names.length_of_type(k as u32)
    } else {
        given.names.length_of_reference((k - types) as u32)
    }
}

/// Weighs the nodes whose paths have so many names, where those with shorter ones are weighed.
fn weigh_level(given: &Given<'_, '_>, weights: &mut [u32], level: u8, count: usize)
    requires some { 0 < level }
    requires few { level ≤ max_path }
    requires count { count ≡ named_count given.now.image }
    requires weighed { AreWeighed given.now.image (level - 1) 0 weights.old }
    ensures { AreWeighed given.now.image level 0 weights.new }
{
    for k in 0..count {
        weigh_node(given, weights, level, k + 1);
    }
}

/// Weighs a node, where its path has so many names.
fn weigh_node(given: &Given<'_, '_>, weights: &mut [u32], level: u8, k: usize)
    requires some { 0 < level }
    requires few { level ≤ max_path }
    requires node { IsNode given.now.image k }
    requires weighed { AreWeighed given.now.image (level - 1) k weights.old }
    ensures { AreWeighed given.now.image (level - 1) (k + 1) weights.new }
{
    if level_of(given, k) != level {
        return;
    }
    let part = part_of(given, k);
    weights[k] = weights[part.outer].saturating_add(part.own);
}

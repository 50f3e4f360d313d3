//! The nearest type that two types have above them.
ghost use Rattle.std.specs.Prelude.{◌≡◌, ◌⊎◌, ◌<◌, ◌≤◌, length, IfOk};
ghost use Rattle.type_terms.specs.declared.term.SigType.{SigType};
ghost use Rattle.sig_pool.specs.Pool.{Extends};
ghost use Rattle.sig_pool.specs.Terms.{term_of};
ghost use Rattle.type_hierarchy.specs.Tables.{hierarchy_in};
ghost use Rattle.type_order.specs.Common.{HasNearest};
ghost use Rattle.type_order.specs.Found.{AreHigher, AreSides, Knows};

use crate::found::{Found, found_parent};
use crate::standing::{raised, standing_of};
use il_lists::NoMemory;
use sig_pool::{SigId, SigPool};
use std::alloc::Global;
use type_hierarchy::tables::Tables;

/// Two types of one depth, by their ids.
#[derive(Clone, Copy, Drop)]
pub struct Sides {
    pub left: SigId,
    pub right: SigId,
    /// The number of types from either up to Object, both counted.
    pub depth: usize,
}

/// The id of the nearest type that is on the chains of both types, each with its ancestors.
pub fn common_id(
    alloc: Global,
    tables: &Tables,
    pool: &mut SigPool,
    found: &mut Found,
    a: SigId,
    b: SigId,
) -> Result<SigId, NoMemory>
    requires tables { length tables.now.names ≡ length tables.now.entries }
    requires a { a < length pool.old }
    requires b { b < length pool.old }
    requires known { Knows (hierarchy_in tables.now) pool.old found.old }
    ensures ok { IfOk result (λ r. HasNearest (hierarchy_in tables.now) (term_of pool.old a) (term_of pool.old b) pool.new r) }
    ensures extends { Extends pool.old pool.new }
    ensures known { Knows (hierarchy_in tables.now) pool.new found.new }
{
    let mut sides = level(alloc, tables, pool, found, a, b)?;
    'meet: while !pool.same(sides.left, sides.right) {
        sides = higher(alloc, tables, pool, found, &sides)?;
    }
    Ok(sides.left)
}

/// The lesser of two numbers.
fn lesser(a: usize, b: usize) -> usize
    ensures first { result ≤ a }
    ensures second { result ≤ b }
    ensures one { (result ≡ a) ⊎ (result ≡ b) }
{
    if a <= b { a } else { b }
}

/// The types on the chains of both at the depth of that of them which is less deep.
fn level(
    alloc: Global,
    tables: &Tables,
    pool: &mut SigPool,
    found: &mut Found,
    a: SigId,
    b: SigId,
) -> Result<Sides, NoMemory>
    requires tables { length tables.now.names ≡ length tables.now.entries }
    requires a { a < length pool.old }
    requires b { b < length pool.old }
    requires known { Knows (hierarchy_in tables.now) pool.old found.old }
    ensures ok { IfOk result (λ x. AreSides (hierarchy_in tables.now) pool.new (term_of pool.old a) (term_of pool.old b) x) }
    ensures extends { Extends pool.old pool.new }
    ensures known { Knows (hierarchy_in tables.now) pool.new found.new }
{
    let from = standing_of(alloc, tables, pool, found, a)?;
    let to = standing_of(alloc, tables, pool, found, b)?;
    let depth = lesser(from.depth, to.depth);
    let left = raised(alloc, tables, pool, found, a, depth)?;
    let right = raised(alloc, tables, pool, found, b, depth)?;
    Ok(Sides { left, right, depth })
}

/// Two types above these, which differ: those to which both jump, where these differ too, and else their parents.
fn higher(
    alloc: Global,
    tables: &Tables,
    pool: &mut SigPool,
    found: &mut Found,
    sides: &Sides,
) -> Result<Sides, NoMemory>
    requires tables { length tables.now.names ≡ length tables.now.entries }
    requires left { sides.now.left < length pool.old }
    requires right { sides.now.right < length pool.old }
    requires known { Knows (hierarchy_in tables.now) pool.old found.old }
    requires differ { term_of pool.old sides.now.left ≡ term_of pool.old sides.now.right → ⊥ }
    ensures ok { (s t : SigType) → AreSides (hierarchy_in tables.now) pool.old s t sides.now → IfOk result (λ x. AreHigher (hierarchy_in tables.now) pool.new s t sides.now.depth x) }
    ensures extends { Extends pool.old pool.new }
    ensures known { Knows (hierarchy_in tables.now) pool.new found.new }
{
    let from = standing_of(alloc, tables, pool, found, sides.left)?;
    let to = standing_of(alloc, tables, pool, found, sides.right)?;
    if from.reach == to.reach && from.reach < sides.depth && !pool.same(from.jump, to.jump) {
        return Ok(Sides {
            left: from.jump,
            right: to.jump,
            depth: from.reach,
        });
    }
    parents_of(alloc, tables, pool, found, sides)
}

/// The parents of two types, which differ.
fn parents_of(
    alloc: Global,
    tables: &Tables,
    pool: &mut SigPool,
    found: &mut Found,
    sides: &Sides,
) -> Result<Sides, NoMemory>
    requires tables { length tables.now.names ≡ length tables.now.entries }
    requires left { sides.now.left < length pool.old }
    requires right { sides.now.right < length pool.old }
    requires known { Knows (hierarchy_in tables.now) pool.old found.old }
    requires differ { term_of pool.old sides.now.left ≡ term_of pool.old sides.now.right → ⊥ }
    ensures ok { (s t : SigType) → AreSides (hierarchy_in tables.now) pool.old s t sides.now → IfOk result (λ x. AreHigher (hierarchy_in tables.now) pool.new s t sides.now.depth x) }
    ensures extends { Extends pool.old pool.new }
    ensures known { Knows (hierarchy_in tables.now) pool.new found.new }
{
    let left = found_parent(alloc, tables, pool, found, sides.left)?;
    let right = found_parent(alloc, tables, pool, found, sides.right)?;
    match left {
        Some(left) => match right {
            Some(right) => Ok(Sides {
                left,
                right,
                depth: sides.depth.saturating_sub(1),
            }),
            None => Ok(*sides),
        },
        None => Ok(*sides),
    }
}

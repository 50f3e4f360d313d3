//! How deep types stand, and the ancestor of a type at a depth, which takes few steps: each type has an ancestor that is
//! reached at once, and these lie so that any depth is reached in a number of steps that grows as the depth's logarithm
//! (E. W. Myers, An applicative random-access stack, 1983).
ghost use Rattle.std.specs.Prelude.{◌≡◌, ◌↔◌, ◌<◌, ℕ, List, length, None, Some, IsTrue, IfOk};
ghost use Rattle.sig_pool.specs.declared.node.Node.{Node};
ghost use Rattle.sig_pool.specs.Pool.{Extends};
ghost use Rattle.sig_pool.specs.Terms.{term_of};
ghost use Rattle.type_hierarchy.specs.Hierarchy.{Hierarchy, Chain, parent};
ghost use Rattle.type_hierarchy.specs.Tables.{hierarchy_in};
ghost use Rattle.type_order.specs.Found.{IsBetween, IsLadder, IsNoLower, IsRaised, IsStanding, Knows};

use crate::found::{Found, Standing, found_parent, known_standing, note_standing};
use il_lists::{Items, NoMemory};
use sig_pool::{SigId, SigIds, SigPool};
use std::alloc::Global;
use type_hierarchy::tables::Tables;

/// The ids from a type upwards whose standing isn't known, and the first behind them, of which it is.
#[derive(Drop)]
struct Ladder {
    ids: SigIds,
    top: SigId,
    standing: Standing,
}

/// Where the type of `id` stands.
pub fn standing_of(
    alloc: Global,
    tables: &Tables,
    pool: &mut SigPool,
    found: &mut Found,
    id: SigId,
) -> Result<Standing, NoMemory>
    requires tables { length tables.now.names ≡ length tables.now.entries }
    requires id { id < length pool.old }
    requires known { Knows (hierarchy_in tables.now) pool.old found.old }
    ensures ok { IfOk result (λ s. IsStanding (hierarchy_in tables.now) pool.new id s) }
    ensures extends { Extends pool.old pool.new }
    ensures known { Knows (hierarchy_in tables.now) pool.new found.new }
{
    if let Some(standing) = known_standing(found, id) {
        return Ok(standing);
    }
    let ladder = ladder_from(alloc, tables, pool, found, id)?;
    descend(found, ladder)
}

/// The ladder from the type of `id`.
fn ladder_from(
    alloc: Global,
    tables: &Tables,
    pool: &mut SigPool,
    found: &mut Found,
    id: SigId,
) -> Result<Ladder, NoMemory>
    requires tables { length tables.now.names ≡ length tables.now.entries }
    requires id { id < length pool.old }
    requires known { Knows (hierarchy_in tables.now) pool.old found.old }
    ensures ok { IfOk result (λ l. IsLadder (hierarchy_in tables.now) pool.new id l.ids l.top × IsStanding (hierarchy_in tables.now) pool.new l.top l.standing) }
    ensures extends { Extends pool.old pool.new }
    ensures known { Knows (hierarchy_in tables.now) pool.new found.new }
{
    let mut ids = Items::new(alloc);
    let mut top = id;
    'climb: for _ in 0..u64::MAX {
        if let Some(standing) = known_standing(found, top) {
            return Ok(Ladder { ids, top, standing });
        }
        match found_parent(alloc, tables, pool, found, top)? {
            Some(parent) => {
                ids.push(top)?;
                top = parent;
            }
            None => {
                let standing = at_top(top);
                return Ok(Ladder { ids, top, standing });
            }
        }
    }
    // No memory holds so many ids.
    Err(NoMemory)
}

/// Where a type without a parent stands.
fn at_top(id: SigId) -> Standing
    ensures { (w : Hierarchy) (ns : List Node) → id < length ns → parent w (term_of ns id) ≡ None → IsStanding w ns id result }
{
    Standing {
        depth: 1,
        jump: id,
        reach: 1,
    }
}

/// Where the type at the foot of a ladder stands; what is found on the way down is kept.
fn descend(found: &mut Found, ladder: Ladder) -> Result<Standing, NoMemory>
    ensures ok { (w : Hierarchy) (ns : List Node) (id : ℕ) → Knows w ns found.old → IsLadder w ns id ladder.ids ladder.top → IsStanding w ns ladder.top ladder.standing → IfOk result (λ s. IsStanding w ns id s) }
    ensures known { (w : Hierarchy) (ns : List Node) (id : ℕ) → Knows w ns found.old → IsLadder w ns id ladder.ids ladder.top → IsStanding w ns ladder.top ladder.standing → Knows w ns found.new }
{
    let Ladder {
        mut ids,
        mut top,
        mut standing,
    } = ladder;
    note_standing(found, top, standing)?;
    while let Some(id) = ids.pop() {
        standing = under(found, top, &standing)?;
        top = id;
        note_standing(found, top, standing)?;
    }
    Ok(standing)
}

/// Where a type stands whose parent is that of `id`, which stands there. It jumps as far as its parent's jump does, where
/// the two jumps before it are as long as each other, and else to its parent.
fn under(found: &Found, id: SigId, standing: &Standing) -> Result<Standing, NoMemory>
    ensures { (w : Hierarchy) (ns : List Node) (below : ℕ) → Knows w ns found.now → IsStanding w ns id standing.now → below < length ns → parent w (term_of ns below) ≡ Some (term_of ns id) → IfOk result (λ s. IsStanding w ns below s) }
{
    let Some(depth) = standing.depth.checked_add(1) else {
        return Err(NoMemory);
    };
    if let Some(next) = known_standing(found, standing.jump) {
        if standing.depth.wrapping_sub(standing.reach) == next.depth.wrapping_sub(next.reach) {
            return Ok(Standing {
                depth,
                jump: next.jump,
                reach: next.reach,
            });
        }
    }
    Ok(Standing {
        depth,
        jump: id,
        reach: standing.depth,
    })
}

/// The ancestor of the type of `id`, or the type itself, at a depth that isn't below the type's own.
pub fn raised(
    alloc: Global,
    tables: &Tables,
    pool: &mut SigPool,
    found: &mut Found,
    id: SigId,
    depth: usize,
) -> Result<SigId, NoMemory>
    requires tables { length tables.now.names ≡ length tables.now.entries }
    requires id { id < length pool.old }
    requires known { Knows (hierarchy_in tables.now) pool.old found.old }
    requires some { 0 < depth }
    requires depth { IsNoLower (hierarchy_in tables.now) (term_of pool.old id) depth }
    ensures ok { IfOk result (λ r. IsRaised (hierarchy_in tables.now) pool.new (term_of pool.old id) depth r) }
    ensures extends { Extends pool.old pool.new }
    ensures known { Knows (hierarchy_in tables.now) pool.new found.new }
{
    let mut at = id;
    let mut standing = standing_of(alloc, tables, pool, found, id)?;
    'raise: while depth < standing.depth {
        at = next_up(alloc, tables, pool, found, at, &standing, depth)?;
        standing = standing_of(alloc, tables, pool, found, at)?;
    }
    Ok(at)
}

/// An ancestor of the type of `id`, which stands there, that isn't above a depth.
fn next_up(
    alloc: Global,
    tables: &Tables,
    pool: &mut SigPool,
    found: &mut Found,
    id: SigId,
    standing: &Standing,
    depth: usize,
) -> Result<SigId, NoMemory>
    requires tables { length tables.now.names ≡ length tables.now.entries }
    requires standing { IsStanding (hierarchy_in tables.now) pool.old id standing.now }
    requires known { Knows (hierarchy_in tables.now) pool.old found.old }
    requires some { 0 < depth }
    requires low { depth < standing.now.depth }
    ensures ok { IfOk result (λ r. IsBetween (hierarchy_in tables.now) pool.new (term_of pool.old id) depth standing.now.depth r) }
    ensures extends { Extends pool.old pool.new }
    ensures known { Knows (hierarchy_in tables.now) pool.new found.new }
{
    if depth <= standing.reach && standing.reach < standing.depth {
        return Ok(standing.jump);
    }
    match found_parent(alloc, tables, pool, found, id)? {
        Some(parent) => Ok(parent),
        None => Ok(id),
    }
}

/// Whether the type of `b` is that of `a` or one of its ancestors.
pub fn is_ancestor(
    alloc: Global,
    tables: &Tables,
    pool: &mut SigPool,
    found: &mut Found,
    a: SigId,
    b: SigId,
) -> Result<bool, NoMemory>
    requires tables { length tables.now.names ≡ length tables.now.entries }
    requires a { a < length pool.old }
    requires b { b < length pool.old }
    requires known { Knows (hierarchy_in tables.now) pool.old found.old }
    ensures ok { IfOk result (λ r. IsTrue r ↔ Chain (hierarchy_in tables.now) (term_of pool.old a) (term_of pool.old b)) }
    ensures extends { Extends pool.old pool.new }
    ensures known { Knows (hierarchy_in tables.now) pool.new found.new }
{
    let low = standing_of(alloc, tables, pool, found, a)?;
    let high = standing_of(alloc, tables, pool, found, b)?;
    if low.depth < high.depth {
        return Ok(false);
    }
    let at = raised(alloc, tables, pool, found, a, high.depth)?;
    Ok(pool.same(at, b))
}

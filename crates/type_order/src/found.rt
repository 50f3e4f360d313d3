//! What a world has found out of its types, by their ids.
ghost use Rattle.std.specs.Prelude.{◌≡◌, ◌<◌, List, length, slice_get, Some, IfOk, IfSome};
ghost use Rattle.sig_pool.specs.declared.node.Node.{Node};
ghost use Rattle.sig_pool.specs.Pool.{Extends};
ghost use Rattle.sig_pool.specs.Terms.{term_of};
ghost use Rattle.type_hierarchy.specs.Hierarchy.{Hierarchy, parent};
ghost use Rattle.type_hierarchy.specs.Pooled.{HasOption};
ghost use Rattle.type_hierarchy.specs.Tables.{hierarchy_in};
ghost use Rattle.type_order.specs.Found.{Puts, Knows, IsStanding, AreLed, none_found};

use crate::queue::Queue;
use il_lists::{Items, NoMemory};
use sig_pool::{SigId, SigPool};
use std::alloc::Global;
use type_hierarchy::kept::{Parents, kept_parent};
use type_hierarchy::tables::Tables;
use type_terms::Path;

/// Where a type stands below its ancestors, and one of them by which others are reached in few steps.
#[derive(Clone, Copy, Drop)]
pub struct Standing {
    /// The number of types from this one up to Object, both counted.
    pub depth: usize,
    /// An ancestor, or the type itself.
    pub jump: SigId,
    /// That one's depth.
    pub reach: usize,
}

/// A class as its own body names it, by ids.
#[derive(Drop)]
pub struct Own {
    pub path: Path,
    /// The number of its generic parameters.
    pub parameters: u32,
    pub class: SigId,
    /// Of a managed pointer to it.
    pub pointer: SigId,
}

/// What was found out of types; but for the last, at the places of their ids.
#[derive(Drop)]
pub struct Found {
    /// The id of the type's parent.
    pub parents: Parents,
    /// Where the type stands.
    pub standings: Items<Option<Standing>>,
    /// The ids of what the type's own interfaces lead to.
    pub led: Items<Option<Queue>>,
    /// The class whose body was looked at last.
    pub own: Option<Own>,
}

impl Found {
    /// Nothing yet. Takes no memory.
    pub fn new(alloc: Global) -> Found
        ensures { result ≡ none_found }
    {
        Found {
            parents: Items::new(alloc),
            standings: Items::new(alloc),
            led: Items::new(alloc),
            own: None,
        }
    }
}

/// Puts an item at a place, where there was none.
fn put_at<X: Drop>(list: &mut Items<Option<X>>, place: usize, item: X) -> Result<(), NoMemory>
    ensures { Puts list.old list.new place item }
{
    while list.len() <= place {
        list.push(None)?;
    }
    list.set(place, Some(item));
    Ok(())
}

/// The id of the parent of the type of `id`; None exactly where it has none.
pub fn found_parent(
    alloc: Global,
    tables: &Tables,
    pool: &mut SigPool,
    found: &mut Found,
    id: SigId,
) -> Result<Option<SigId>, NoMemory>
    requires tables { length tables.now.names ≡ length tables.now.entries }
    requires id { id < length pool.old }
    requires known { Knows (hierarchy_in tables.now) pool.old found.old }
    ensures ok { IfOk result (λ r. HasOption pool.new r (parent (hierarchy_in tables.now) (term_of pool.old id))) }
    ensures extends { Extends pool.old pool.new }
    ensures known { Knows (hierarchy_in tables.now) pool.new found.new }
{
    kept_parent(alloc, tables, pool, &mut found.parents, id)
}

/// Where the type of an id stands, where that is known.
pub fn known_standing(found: &Found, id: SigId) -> Option<Standing>
    ensures { IfSome result (λ s. slice_get found.now.standings id ≡ Some (Some s)) }
{
    match found.standings.get(id.place()) {
        Some(standing) => *standing,
        None => None,
    }
}

/// Keeps where the type of an id stands.
pub fn note_standing(found: &mut Found, id: SigId, standing: Standing) -> Result<(), NoMemory>
    ensures { (w : Hierarchy) (ns : List Node) → Knows w ns found.old → IsStanding w ns id standing → Knows w ns found.new }
{
    put_at(&mut found.standings, id.place(), standing)
}

/// The ids of what the interfaces of the type of an id lead to, where they are known.
pub fn known_led(found: &Found, id: SigId) -> Option<&Queue>
    ensures { IfSome result (λ q. slice_get found.now.led id ≡ Some (Some q.now)) }
{
    match found.led.get(id.place()) {
        Some(Some(led)) => Some(led),
        _ => None,
    }
}

/// Keeps the ids of what the interfaces of the type of an id lead to.
pub fn note_led(found: &mut Found, id: SigId, led: Queue) -> Result<(), NoMemory>
    ensures { (w : Hierarchy) (ns : List Node) → Knows w ns found.old → AreLed w ns id led → Knows w ns found.new }
{
    put_at(&mut found.led, id.place(), led)
}

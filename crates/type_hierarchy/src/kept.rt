//! Parents that were found, kept by the ids of their types.
ghost use Rattle.std.specs.Prelude.{◌≡◌, ◌<◌, length, slice_get, Some, IfOk, IfSome};
ghost use Rattle.sig_pool.specs.Pool.{Extends};
ghost use Rattle.sig_pool.specs.Terms.{term_of};
ghost use Rattle.type_hierarchy.specs.Hierarchy.{parent};
ghost use Rattle.type_hierarchy.specs.Pooled.{HasOption};
ghost use Rattle.type_hierarchy.specs.Tables.{hierarchy_in};
ghost use Rattle.type_hierarchy.specs.World.{KnowsParents, Notes};

use crate::parents::parent_id;
use crate::tables::Tables;
use il_lists::{Items, NoMemory};
use sig_pool::{SigId, SigPool};
use std::alloc::Global;

/// At the place of an id, the id of its type's parent where it is known.
pub type Parents = Items<Option<SigId>>;

/// The id of the parent of the type of `id`, which is kept; None exactly where it has none.
pub fn kept_parent(
    alloc: Global,
    tables: &Tables,
    pool: &mut SigPool,
    parents: &mut Parents,
    id: SigId,
) -> Result<Option<SigId>, NoMemory>
    requires tables { length tables.now.names ≡ length tables.now.entries }
    requires id { id < length pool.old }
    requires known { KnowsParents (hierarchy_in tables.now) pool.old parents.old }
    ensures ok { IfOk result (λ r. HasOption pool.new r (parent (hierarchy_in tables.now) (term_of pool.old id))) }
    ensures extends { Extends pool.old pool.new }
    ensures known { KnowsParents (hierarchy_in tables.now) pool.new parents.new }
{
    if let Some(parent) = known(parents, id) {
        return Ok(Some(parent));
    }
    match parent_id(alloc, tables, pool, id)? {
        Some(parent) => {
            note(parents, id, parent)?;
            Ok(Some(parent))
        }
        None => Ok(None),
    }
}

/// The parent that is kept for `id`.
fn known(parents: &Parents, id: SigId) -> Option<SigId>
    ensures { IfSome result (λ p. slice_get parents.now id ≡ Some (Some p)) }
{
    match parents.get(id.place()) {
        Some(parent) => *parent,
        None => None,
    }
}

/// Keeps a parent for `id`.
fn note(parents: &mut Parents, id: SigId, parent: SigId) -> Result<(), NoMemory>
    ensures { Notes parents.old parents.new id parent }
{
    while parents.len() <= id.place() {
        parents.push(None)?;
    }
    parents.set(id.place(), Some(parent));
    Ok(())
}

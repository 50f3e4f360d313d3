//! The types to which steps lead from one.

ghost use Rattle.std.specs.Prelude.{◌<◌, length, IfOk, OnOk};
ghost use Rattle.type_hierarchy.specs.Queues.{AddsAll};
ghost use Rattle.type_tables.specs.Walks.{IsReach, IsWithin};

use il_lists::{Items, NoMemory};
use indexmap::IndexSet;
use std::alloc::Global;

/// The places of the types to which one step or more leads from the type at place `start`: a walk that takes each of them
/// once.
pub fn reached(
    alloc: Global,
    steps: &Items<Items<usize>>,
    start: usize,
) -> Result<IndexSet<usize>, NoMemory>
    requires within { IsWithin steps.now }
    requires low { start < length steps.now }
    ensures { IfOk result (λ s. IsReach steps.now start s.keys) }
{
    let mut seen = IndexSet::new(alloc);
    add_all(&mut seen, steps.at(start).as_slice())?;
    let mut done = 0;
    while done < seen.len() {
        let Some(at) = seen.get_index(done).copied() else {
            return Ok(seen);
        };
        add_all(&mut seen, steps.at(at).as_slice())?;
        done += 1;
    }
    Ok(seen)
}

/// Adds each of the places that isn't there.
fn add_all(seen: &mut IndexSet<usize>, places: &[usize]) -> Result<(), NoMemory>
    ensures { OnOk result (AddsAll seen.old.keys seen.new.keys places.now) }
{
    for place in places {
        seen.insert(*place)?;
    }
    Ok(())
}

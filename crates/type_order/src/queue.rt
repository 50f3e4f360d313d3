ghost use Rattle.std.specs.Prelude.{◌≡◌, ◌↔◌, [], slice_get, IsTrue, OnOk};
ghost use Rattle.std.specs.List.{Contains};
ghost use Rattle.std.specs.Option.{option_copied};
ghost use Rattle.type_hierarchy.specs.Queues.{IsAdded, AddsAll, optional};

use il_lists::{Items, NoMemory};
use indexmap::IndexSet;
use sig_pool::{SigId, SigIds};
use std::alloc::Global;
use std::marker::Model;

/// Ids that are kept once each, in the order in which they came. Contracts see the list of them.
#[derive(Drop)]
pub struct Queue {
    ids: SigIds,
    places: IndexSet<usize>,
}

impl Model for Queue {
    ghost use Rattle.std.specs.Prelude.{List, ℕ, ◌≡◌, ◌↔◌, true, nat_eq};
    ghost use Rattle.std.specs.List.{Contains};
    ghost use Rattle.indexmap.specs.IndexSet.{contains};

    ghost Value = { List ℕ };

    ghost view = { λ q. q.ids };

    ghost invariant = { λ q. (k : ℕ) → (contains nat_eq q.places k ≡ true) ↔ Contains q.ids k };
}

impl Queue {
    /// No ids. Takes no memory.
    pub fn new(alloc: Global) -> Queue
        ensures { result ≡ [] }
    {
        Queue {
            ids: Items::new(alloc),
            places: IndexSet::new(alloc),
        }
    }

    /// The id at place `k`, or None where there are fewer.
    pub fn get(&self, k: usize) -> Option<SigId>
        ensures { result ≡ slice_get self.now k }
    {
        self.ids.get(k).copied()
    }

    /// Adds an id at the end, where it isn't there.
    pub fn add(&mut self, id: SigId) -> Result<(), NoMemory>
        ensures { OnOk result (IsAdded self.old self.new id) }
    {
        if self.places.contains(&id.place()) {
            return Ok(());
        }
        let count = self.ids.len();
        self.ids.push(id)?;
        match self.places.insert(id.place()) {
            Ok(_) => Ok(()),
            Err(_) => {
                self.ids.truncate(count);
                Err(NoMemory)
            }
        }
    }

    /// Whether an id is there. Takes no memory.
    pub fn holds(&self, id: SigId) -> bool
        ensures { IsTrue result ↔ Contains self.now id }
    {
        self.places.contains(&id.place())
    }

    /// Adds an id at the end, where there is one and it isn't there.
    pub fn add_optional(&mut self, id: Option<SigId>) -> Result<(), NoMemory>
        ensures { OnOk result (AddsAll self.old self.new (optional id)) }
    {
        match id {
            Some(id) => {
                self.add(id)?;
                Ok(())
            }
            None => Ok(()),
        }
    }

    /// Adds each of the ids that isn't there at the end.
    pub fn add_all(&mut self, ids: &[SigId]) -> Result<(), NoMemory>
        ensures { OnOk result (AddsAll self.old self.new ids.now) }
    {
        for id in ids {
            self.add(*id)?;
        }
        Ok(())
    }
}

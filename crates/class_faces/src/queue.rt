ghost use Rattle.std.specs.Prelude.{◌≡◌, [], slice_get, OnOk};
ghost use Rattle.type_hierarchy.specs.Queues.{IsAdded, AddsAll, optional};

use il_lists::{Items, NoMemory};
use indexmap::IndexSet;
use std::alloc::Global;
use std::marker::Model;
use type_order::{TypeKey, TypeKeys};

/// Keys that are kept once each, in the order in which they came. Contracts see the list of them.
#[derive(Drop)]
pub struct Queue {
    keys: TypeKeys,
    places: IndexSet<usize>,
}

impl Model for Queue {
    ghost use Rattle.std.specs.Prelude.{List, ℕ, ◌≡◌, true, nat_eq};
    ghost use Rattle.std.specs.List.{Contains};
    ghost use Rattle.indexmap.specs.IndexSet.{contains};

    ghost Value = { List ℕ };

    ghost view = { λ q. q.keys };

    ghost invariant = { λ q. (k : ℕ) → contains nat_eq q.places k ≡ true → Contains q.keys k };
}

impl Queue {
    /// No keys. Takes no memory.
    pub fn new(alloc: Global) -> Queue
        ensures { result ≡ [] }
    {
        Queue {
            keys: Items::new(alloc),
            places: IndexSet::new(alloc),
        }
    }

    /// The key at place `k`, or None where there are fewer.
    pub fn get(&self, k: usize) -> Option<TypeKey>
        ensures { result ≡ slice_get self.now k }
    {
        self.keys.get(k).copied()
    }

    /// Takes the keys out.
    pub fn into_keys(self) -> TypeKeys
        ensures { result ≡ self }
    {
        let Queue { keys, .. } = self;
        keys
    }

    /// Adds a key at the end, where it isn't there.
    fn add(&mut self, key: TypeKey) -> Result<(), NoMemory>
        ensures { OnOk result (IsAdded self.old self.new key) }
    {
        if self.places.contains(&key.id().place()) {
            return Ok(());
        }
        self.keys.push(key)?;
        self.places.insert(key.id().place())?;
        Ok(())
    }

    /// Adds a key at the end, where there is one and it isn't there.
    pub fn add_optional(&mut self, key: Option<TypeKey>) -> Result<(), NoMemory>
        ensures { OnOk result (AddsAll self.old self.new (optional key)) }
    {
        match key {
            Some(key) => {
                self.add(key)?;
                Ok(())
            }
            None => Ok(()),
        }
    }

    /// Adds each of the keys that isn't there at the end.
    pub fn add_all(&mut self, keys: &[TypeKey]) -> Result<(), NoMemory>
        ensures { OnOk result (AddsAll self.old self.new keys.now) }
    {
        for key in keys {
            self.add(*key)?;
        }
        Ok(())
    }
}

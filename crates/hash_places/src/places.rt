//! A table of slots with the number of those that are used. It is doubled before more than half of them are used.

ghost use Rattle.std.specs.Prelude.{◌≡◌, ℕ, ◌-◌, ◌<◌, ◌^◌, length, cond, nat_eq, Some, None, IfOk, OnOk, OnErr};
ghost use Rattle.hash_places.specs.Slots.{place_of, used_in};

use crate::slots::{Slot, empty_slots, place_in, put, put_all, slots_for, stop_of};
use il_lists::NoMemory;
use std::alloc::Global;
use std::marker::Model;

/// A map from hashes to places. Contracts see the slots, by `place_of`.
#[derive(Drop)]
pub struct HashPlaces {
    slots: Vec<Slot>,
    used: usize,
}

impl Model for HashPlaces {
    ghost use Rattle.std.specs.Prelude.{List};
    ghost use Rattle.hash_places.specs.Slots.{IsTable};
    ghost use Rattle.hash_places.specs.declared.slots.Slot.{Slot};

    ghost Value = { List Slot };

    ghost view = { λ t. t.slots.items };

    ghost invariant = { λ t. IsTable t.slots.items t.used };
}

impl HashPlaces {
    /// No hashes. Takes no memory.
    pub fn new(alloc: Global) -> HashPlaces
        ensures { (h : ℕ) → place_of result h ≡ None }
    {
        HashPlaces {
            slots: Vec::new(alloc),
            used: 0,
        }
    }

    /// No hashes, with room for so many.
    pub fn with_room(alloc: Global, count: usize) -> Result<HashPlaces, NoMemory>
        ensures { IfOk result (λ t. (h : ℕ) → place_of t h ≡ None) }
    {
        if count == 0 {
            return Ok(HashPlaces::new(alloc));
        }
        let slots = empty_slots(alloc, slots_for(count))?;
        Ok(HashPlaces { slots, used: 0 })
    }

    /// The place of a hash. Takes no memory.
    pub fn get(&self, hash: u64) -> Option<usize>
        ensures { result ≡ place_of self.now hash }
    {
        let slots = self.slots.as_slice();
        match stop_of(slots, hash) {
            Some(k) => place_in(slots[k].place),
            None => None,
        }
    }

    /// Gives a hash a place, and answers the place that it had.
    pub fn insert(&mut self, hash: u64, place: usize) -> Result<Option<usize>, NoMemory>
        requires { place < 2 ^ 64 - 1 }
        ensures ok { OnOk result ((q : ℕ) → place_of self.new q ≡ cond (nat_eq hash q) (Some place) (place_of self.old q)) }
        ensures answer { IfOk result (λ before. before ≡ place_of self.old hash) }
        ensures err { OnErr result ((q : ℕ) → place_of self.new q ≡ place_of self.old q) }
    {
        self.make_room()?;
        let before = put(self.slots.as_mut_slice(), hash, place + 1);
        if before == 0 {
            self.used += 1;
        }
        Ok(place_in(before))
    }

    // Doubles the slots if half of them are used.
    fn make_room(&mut self) -> Result<(), NoMemory>
        ensures same { (q : ℕ) → place_of self.new q ≡ place_of self.old q }
        ensures room { OnOk result (used_in self.new < length self.new) }
    {
        let count = self.slots.as_slice().len();
        if self.used < count / 2 {
            return Ok(());
        }
        let more = if count < 4 { 8 } else { 2 * count };
        let mut slots = empty_slots(*self.slots.allocator(), more)?;
        self.used = put_all(self.slots.as_slice(), slots.as_mut_slice());
        self.slots = slots;
        Ok(())
    }
}

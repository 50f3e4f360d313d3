ghost use Rattle.std.specs.Prelude.{◌≡◌, ℕ, Some, None, cond, nat_eq, OnOk, OnErr};
ghost use Rattle.std.specs.Option.{option_copied};
ghost use Rattle.kept_names.specs.Keeping.{kept_at, AreWithin};

use hash_places::HashPlaces;
use il_lists::{Items, NoMemory};
use std::alloc::Global;

/// Values that are found by a number.
#[derive(Drop)]
pub struct Kept<T> {
    pub(crate) places: HashPlaces,
    pub(crate) items: Items<T>,
    ghost within: { AreWithin places items },
}

impl<T> Kept<T> {
    /// No values. Takes no memory.
    pub fn new(alloc: Global) -> Kept<T>
        ensures { (key : ℕ) → kept_at result.places result.items key ≡ None }
    {
        Kept {
            places: HashPlaces::new(alloc),
            items: Items::new(alloc),
        }
    }

    /// The value of a number. Takes no memory.
    pub fn get(&self, key: u64) -> Option<&T>
        ensures { option_copied result ≡ kept_at self.now.places self.now.items key }
    {
        match self.places.get(key) {
            Some(place) => self.items.get(place),
            None => None,
        }
    }
}

impl<T: Drop> Kept<T> {
    /// Keeps a value under a number, in place of the one that was there.
    pub fn keep(&mut self, key: u64, item: T) -> Result<(), NoMemory>
        ensures ok { OnOk result ((q : ℕ) → kept_at self.new.places self.new.items q ≡ cond (nat_eq key q) (Some item) (kept_at self.old.places self.old.items q)) }
    {
        let place = self.items.as_slice().len();
        if place == usize::MAX {
            return Err(NoMemory);
        }
        self.items.push(item)?;
        self.places.insert(key, place)?;
        Ok(())
    }
}

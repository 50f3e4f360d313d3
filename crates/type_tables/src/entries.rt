ghost use Rattle.std.specs.Prelude.{◌≡◌, ◌∷◌, ◌++◌, [], List, ℕ, OnOk, position};
ghost use Rattle.type_tables.specs.Entries.{IsEntries, extended};
ghost use Rattle.type_hierarchy.specs.Names.{same_text};

use crate::texts::Texts;
use il_lists::{Copies, Items, NoMemory, Numbers, Text};
use std::alloc::Global;

/// The entries of a world: for each name of an assembly, the first place at which it stands. A name may stand twice.
#[derive(Drop)]
pub struct Entries {
    /// The names, once each.
    pub texts: Texts,
    /// The first place of each.
    pub places: Numbers,
    /// The number of entries.
    pub count: u32,
}

impl Entries {
    /// No entries. Takes no memory.
    pub fn new(alloc: Global) -> Entries
        ensures { IsEntries result [] }
    {
        Entries {
            texts: Texts::new(alloc),
            places: Items::new(alloc),
            count: 0,
        }
    }

    /// The first place of a name. Takes no memory.
    pub fn place(&self, name: &[u8]) -> Option<u32>
        ensures { (all : List (List ℕ)) → IsEntries self.now all → result ≡ position (same_text name.now) all }
    {
        match self.texts.find(name) {
            Some(k) => self.places.get(k).copied(),
            None => None,
        }
    }

    /// Adds an entry at the end.
    pub fn push(&mut self, alloc: Global, name: &Text) -> Result<(), NoMemory>
        ensures { OnOk result ((all : List (List ℕ)) → IsEntries self.old all → IsEntries self.new (all ++ name.now ∷ [])) }
    {
        let Some(count) = self.count.checked_add(1) else {
            // No assembly within its weight names so many.
            return Err(NoMemory);
        };
        match self.texts.find(name.as_bytes()) {
            Some(_) => {
                self.count = count;
                Ok(())
            }
            None => {
                let text = name.copy(alloc)?;
                self.texts.push(text)?;
                self.places.push(self.count)?;
                self.count = count;
                Ok(())
            }
        }
    }

    /// Adds an entry at the end for a name that isn't `image` and has none.
    pub fn push_new(&mut self, alloc: Global, image: &Text, name: &Text) -> Result<(), NoMemory>
        ensures { OnOk result ((all : List (List ℕ)) → IsEntries self.old all → IsEntries self.new (extended image.now all (name.now ∷ []))) }
    {
        if name.as_bytes() == image.as_bytes() {
            return Ok(());
        }
        match self.texts.find(name.as_bytes()) {
            Some(_) => Ok(()),
            None => {
                self.push(alloc, name)?;
                Ok(())
            }
        }
    }
}

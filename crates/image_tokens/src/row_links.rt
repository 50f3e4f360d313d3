//! The links by which rows that stand in a list are found again.
ghost use Rattle.std.specs.Prelude.{◌≡◌, ◌+◌, ◌^◌, ◌<◌, List, length, IfSome, IfNone, OnOk};

use crate::row_set::{Cells, hash_of};
use hash_places::HashPlaces;
use il_base::{Items, NoMemory};
use std::alloc::Global;

/// Links of the first rows of a list.
#[derive(Drop)]
pub(crate) struct Links {
    pub alloc: Global,
    // From a hash to the place of the newest linked row with it.
    pub newest: HashPlaces,
    // The place of the newest older row with the same hash, for each linked row.
    pub nexts: Items<Option<usize>>,
}

impl Links {
    ghost use Rattle.image_tokens.specs.RowLinks.{AreLinked};
    ghost use Rattle.image_tokens.specs.Rows.{IsRowAt, Lacks};
    ghost use Rattle.image_tokens.specs.declared.row_set.Cells.{Cells};

    /// No row is linked. Takes no memory.
    pub fn new(alloc: Global) -> Links
        ensures { (rows : List Cells) → AreLinked rows result }
    {
        Links {
            alloc,
            newest: HashPlaces::new(alloc),
            nexts: Items::new(alloc),
        }
    }

    /// Links all rows.
    pub fn link_all(&mut self, rows: &[Cells]) -> Result<(), NoMemory>
        requires { AreLinked rows.now self.old }
        ensures linked { AreLinked rows.now self.new }
        ensures all { OnOk result (length self.new.nexts ≡ length rows.now) }
    {
        self.make_room(rows)?;
        while self.nexts.len() < rows.len() {
            self.link_next(rows)?;
        }
        Ok(())
    }

    // Makes room for links of all rows, where none is linked yet.
    fn make_room(&mut self, rows: &[Cells]) -> Result<(), NoMemory>
        requires { AreLinked rows.now self.old }
        ensures { AreLinked rows.now self.new }
    {
        if self.nexts.is_empty() {
            self.newest = HashPlaces::with_room(self.alloc, rows.len())?;
            self.nexts.reserve(rows.len())?;
        }
        Ok(())
    }

    // Links the first row that isn't linked.
    fn link_next(&mut self, rows: &[Cells]) -> Result<(), NoMemory>
        requires linked { AreLinked rows.now self.old }
        requires more { length self.old.nexts < length rows.now }
        ensures linked { AreLinked rows.now self.new }
        ensures one { OnOk result (length self.new.nexts ≡ length self.old.nexts + 1) }
    {
        let place = self.nexts.len();
        let hash = hash_of(rows[place]);
        let next = self.newest.get(hash);
        self.nexts.push(next)?;
        match self.newest.insert(hash, place) {
            Ok(_) => Ok(()),
            Err(_) => {
                self.nexts.truncate(place);
                Err(NoMemory)
            }
        }
    }

    /// The number of a row with these cells, where all rows are linked. Takes no memory.
    pub fn find(&self, rows: &[Cells], cells: Cells) -> Option<u32>
        requires linked { AreLinked rows.now self.now }
        requires all { length self.now.nexts ≡ length rows.now }
        requires few { length rows.now < 2 ^ 24 }
        ensures found { IfSome result (IsRowAt rows.now cells) }
        ensures none { IfNone result (Lacks rows.now cells) }
        ensures few { IfSome result (λ row. row < 2 ^ 24) }
    {
        let mut at = self.newest.get(hash_of(cells));
        while let Some(place) = at {
            if rows[place] == cells {
                return Some(place as u32 + 1);
            }
            at = *self.nexts.at(place);
        }
        None
    }
}

//! Rows that are found again by their cells.
ghost use Rattle.std.specs.Prelude.{◌≡◌, ℕ, ◌-◌, ◌^◌, ◌<◌, ◌++◌, ◌∷◌, ◌⊎◌, [], length, slice_get, Some, IfSome, IfNone, IfOk, OnOk, OnErr};
ghost use Rattle.image_tokens.specs.Rows.{cells_hash};

use crate::hashing::hash_cells;
use hash_places::HashPlaces;
use il_base::{Items, NoMemory};
use std::alloc::Global;
use std::marker::Model;

/// The cells of a row; those that its table lacks are 0.
#[derive(Debug, Clone, Copy, PartialEq, Eq, Hash)]
pub struct Cells {
    pub first: u32,
    pub second: u32,
    pub third: u32,
}

/// A row, and the place of the newest older row with the same hash.
#[derive(Clone, Copy)]
pub(crate) struct Linked {
    pub cells: Cells,
    pub next: Option<usize>,
}

/// Distinct rows of one table, numbered from 1. Contracts see the list of them.
#[derive(Drop)]
pub struct RowSet {
    // From a hash to the place of the newest row with it.
    newest: HashPlaces,
    rows: Items<Linked>,
}

impl Model for RowSet {
    ghost use Rattle.std.specs.Prelude.{List, ◌<◌, ◌^◌, length, map};
    ghost use Rattle.hash_places.specs.Slots.{place_of};
    ghost use Rattle.image_tokens.specs.Chains.{IsChained};
    ghost use Rattle.image_tokens.specs.declared.row_set.Cells.{Cells};

    ghost Value = { List Cells };

    ghost view = { λ r. map (λ e. e.cells) r.rows };

    ghost use Rattle.image_tokens.specs.Rows.{cells_hash};

    ghost invariant = { λ r. (length r.rows < 2 ^ 24) × IsChained cells_hash (place_of r.newest) (map (λ e. e.cells) r.rows) (map (λ e. e.next) r.rows) };
}

impl RowSet {
    ghost use Rattle.image_tokens.specs.Rows.{IsRowAt, Lacks, AreDistinct};

    /// No rows. Takes no memory.
    pub fn new(alloc: Global) -> RowSet
        ensures { result ≡ [] }
    {
        RowSet {
            newest: HashPlaces::new(alloc),
            rows: Items::new(alloc),
        }
    }

    /// No rows, with room for so many.
    pub fn with_room(alloc: Global, count: usize) -> Result<RowSet, NoMemory>
        ensures { IfOk result (λ rows. rows ≡ []) }
    {
        let newest = HashPlaces::with_room(alloc, count)?;
        let rows = Items::with_capacity(alloc, count)?;
        Ok(RowSet { newest, rows })
    }

    /// The number of rows.
    pub fn len(&self) -> usize
        ensures len { result ≡ length self.now }
        ensures few { result < 2 ^ 24 }
        ensures distinct { AreDistinct self.now }
    {
        self.rows.len()
    }

    /// The cells of row `k`, counted from 0.
    pub fn at(&self, k: usize) -> Cells
        requires { k < length self.now }
        ensures { slice_get self.now k ≡ Some result }
    {
        self.rows.at(k).cells
    }

    /// The number of the row with these cells. Takes no memory.
    pub fn find(&self, cells: Cells) -> Option<u32>
        ensures found { IfSome result (IsRowAt self.now cells) }
        ensures only { IfSome result (λ row. (other : ℕ) → IsRowAt self.now cells other → row ≡ other) }
        ensures none { IfNone result (Lacks self.now cells) }
        ensures few { IfSome result (λ row. row < 2 ^ 24) }
    {
        self.find_hashed(hash_of(cells), cells)
    }

    // The number of the row with these cells, which have this hash.
    fn find_hashed(&self, hash: u64, cells: Cells) -> Option<u32>
        requires { hash ≡ cells_hash cells }
        ensures found { IfSome result (IsRowAt self.now cells) }
        ensures only { IfSome result (λ row. (other : ℕ) → IsRowAt self.now cells other → row ≡ other) }
        ensures none { IfNone result (Lacks self.now cells) }
        ensures few { IfSome result (λ row. row < 2 ^ 24) }
    {
        let mut at = self.newest.get(hash);
        while let Some(place) = at {
            let row = self.rows.at(place);
            if row.cells == cells {
                return Some(place as u32 + 1);
            }
            at = row.next;
        }
        None
    }

    /// The number of the row with these cells, which is added at the end where it isn't there.
    pub fn number(&mut self, cells: Cells) -> Result<u32, NoMemory>
        requires { length self.old < 2 ^ 24 - 1 }
        ensures at { IfOk result (IsRowAt self.new cells) }
        ensures kept { OnOk result ((self.new ≡ self.old) ⊎ ((self.new ≡ self.old ++ cells ∷ []) × Lacks self.old cells)) }
        ensures few { IfOk result (λ row. row < 2 ^ 24) }
        ensures err { OnErr result (self.new ≡ self.old) }
    {
        let hash = hash_of(cells);
        if let Some(row) = self.find_hashed(hash, cells) {
            return Ok(row);
        }
        self.add_hashed(hash, cells)?;
        Ok(self.rows.len() as u32)
    }

    // Adds a row with these cells, which have this hash.
    fn add_hashed(&mut self, hash: u64, cells: Cells) -> Result<(), NoMemory>
        requires hash { hash ≡ cells_hash cells }
        requires few { length self.old < 2 ^ 24 - 1 }
        requires lacks { Lacks self.old cells }
        ensures ok { OnOk result (self.new ≡ self.old ++ cells ∷ []) }
        ensures err { OnErr result (self.new ≡ self.old) }
    {
        let next = self.newest.get(hash);
        let place = self.rows.as_slice().len();
        self.rows.push(Linked { cells, next })?;
        match self.newest.insert(hash, place) {
            Ok(_) => Ok(()),
            Err(_) => {
                self.rows.truncate(place);
                Err(NoMemory)
            }
        }
    }
}

/// The hash of cells.
pub(crate) fn hash_of(cells: Cells) -> u64
    ensures { result ≡ cells_hash cells }
{
    hash_cells(cells.first, cells.second, cells.third)
}

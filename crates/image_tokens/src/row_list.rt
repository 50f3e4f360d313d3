//! Rows in the order in which they came, found again by their cells.
ghost use Rattle.std.specs.Prelude.{◌≡◌, ◌-◌, ◌^◌, ◌<◌, ◌++◌, ◌∷◌, [], length, slice_get, Some, IfSome, IfNone, IfOk, OnOk, OnErr};

use crate::row_links::Links;
use crate::row_set::Cells;
use il_base::{Items, NoMemory};
use std::alloc::Global;
use std::marker::Model;

/// The rows of one table, numbered from 1; some may have the same cells. They are linked by their hashes where a row is sought, and
/// not before. Contracts see the list of them.
#[derive(Drop)]
pub struct RowList {
    rows: Items<Cells>,
    links: Links,
}

impl Model for RowList {
    ghost use Rattle.std.specs.Prelude.{List, ◌<◌, ◌^◌, length};
    ghost use Rattle.image_tokens.specs.RowLinks.{AreLinked};
    ghost use Rattle.image_tokens.specs.declared.row_set.Cells.{Cells};

    ghost Value = { List Cells };

    ghost view = { λ r. r.rows };

    ghost invariant = { λ r. (length r.rows < 2 ^ 24) × AreLinked r.rows r.links };
}

impl RowList {
    ghost use Rattle.image_tokens.specs.Rows.{IsRowAt, Lacks};

    /// No rows. Takes no memory.
    pub fn new(alloc: Global) -> RowList
        ensures { result ≡ [] }
    {
        RowList {
            rows: Items::new(alloc),
            links: Links::new(alloc),
        }
    }

    /// No rows, with room for so many.
    pub fn with_room(alloc: Global, count: usize) -> Result<RowList, NoMemory>
        ensures { IfOk result (λ rows. rows ≡ []) }
    {
        let rows = Items::with_capacity(alloc, count)?;
        Ok(RowList {
            rows,
            links: Links::new(alloc),
        })
    }

    /// The number of rows.
    pub fn len(&self) -> usize
        ensures len { result ≡ length self.now }
        ensures few { result < 2 ^ 24 }
    {
        self.rows.len()
    }

    /// The cells of row `k`, counted from 0.
    pub fn at(&self, k: usize) -> Cells
        requires { k < length self.now }
        ensures { slice_get self.now k ≡ Some result }
    {
        *self.rows.at(k)
    }

    /// The number of a row with these cells. Takes memory only where rows have been added since one was sought.
    pub fn find(&mut self, cells: Cells) -> Result<Option<u32>, NoMemory>
        ensures same { self.new ≡ self.old }
        ensures found { IfOk result (λ row. IfSome row (IsRowAt self.old cells)) }
        ensures none { IfOk result (λ row. IfNone row (Lacks self.old cells)) }
        ensures few { IfOk result (λ row. IfSome row (λ n. n < 2 ^ 24)) }
    {
        self.links.link_all(self.rows.as_slice())?;
        Ok(self.links.find(self.rows.as_slice(), cells))
    }

    /// Adds a row at the end, and answers its number.
    pub fn push(&mut self, cells: Cells) -> Result<u32, NoMemory>
        requires { length self.old < 2 ^ 24 - 1 }
        ensures added { OnOk result (self.new ≡ self.old ++ cells ∷ []) }
        ensures number { IfOk result (λ row. row ≡ length self.new) }
        ensures err { OnErr result (self.new ≡ self.old) }
    {
        self.rows.push(cells)?;
        Ok(self.rows.len() as u32)
    }
}

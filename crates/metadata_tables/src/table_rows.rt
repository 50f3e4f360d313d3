ghost use Rattle.std.specs.Prelude.{◌≡◌, ◌<◌, ◌^◌, ◌++◌, ◌∷◌, [], length, slice_index_or, OnOk, OnErr, All};

use il_lists::{NoMemory, Numbers};
use std::alloc::Global;
use std::marker::Model;

/// The rows of one table, which have equally many cells. Contracts see them as the list of the rows, each
/// the list of its cells.
#[derive(Drop)]
pub(crate) struct TableRows {
    columns: usize,
    len: usize,
    /// The cells of all rows, one after another.
    cells: Numbers,
}

impl Model for TableRows {
    ghost use Rattle.std.specs.Prelude.{List, ℕ, ◌≡◌, ◌*◌, length};
    ghost use Rattle.metadata_tables.specs.Encoding.{pieces};

    ghost Value = { List (List ℕ) };

    ghost view = { λ rows. pieces rows.columns rows.len rows.cells };

    ghost invariant = { λ rows. length rows.cells ≡ rows.columns * rows.len };
}

impl TableRows {
    /// No rows. Takes no memory.
    pub(crate) fn new(alloc: Global) -> TableRows
        ensures { result ≡ [] }
    {
        TableRows {
            columns: 0,
            len: 0,
            cells: Numbers::new(alloc),
        }
    }

    /// How many rows there are.
    pub(crate) fn len(&self) -> usize
        ensures { result ≡ length self.now }
    {
        self.len
    }

    /// The cells of row `k`, counted from 0.
    pub(crate) fn row(&self, k: usize) -> &[u32]
        requires { k < length self.now }
        ensures { result.now ≡ slice_index_or self.now k [] }
    {
        let cells = self.cells.as_slice();
        let first = self.columns * k;
        &cells[first..first + self.columns]
    }

    /// Adds a row at the end.
    pub(crate) fn push(&mut self, cells: &[u32]) -> Result<(), NoMemory>
        requires room { length self.old < 2 ^ 32 }
        requires some { 0 < length cells.now }
        requires alike { All (λ row. length row ≡ length cells.now) self.old }
        ensures ok { OnOk result (self.new ≡ self.old ++ cells.now ∷ []) }
        ensures err { OnErr result (self.new ≡ self.old) }
    {
        self.cells.extend(cells)?;
        self.columns = cells.len();
        self.len += 1;
        Ok(())
    }
}

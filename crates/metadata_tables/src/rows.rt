ghost use Rattle.std.specs.Prelude.{◌≡◌, ◌<◌, ◌+◌, ◌-◌, ◌^◌, ℕ, [], length, OnOk, OnErr, IfOk, slice_index, slice_index_or};
ghost use Rattle.metadata_tables.specs.Encoding.{rows_of, rows_in, AddsRow, AreRows, IsRowOf};

use crate::table_rows::TableRows;
use il_lists::NoMemory;
use std::alloc::Global;
use std::array;
use std::marker::Model;

/// Rows to be encoded. Contracts see them as the list of the tables, each the list of its rows, each
/// the list of its cells.
#[derive(Drop)]
pub struct Rows {
    tables: [TableRows; 45],
}

impl Model for Rows {
    ghost use Rattle.std.specs.Prelude.{List, ℕ, ◌<◌, ◌^◌, ◌≡◌, length};

    ghost Value = { List (List (List ℕ)) };

    ghost use Rattle.metadata_tables.specs.Encoding.{AreRows};

    ghost view = { λ rows. rows.tables };

    ghost invariant = { λ rows. AreRows rows.tables };
}

impl Rows {
    /// No rows. Takes no memory.
    pub fn new(alloc: Global) -> Rows
        ensures { (table : ℕ) → rows_of result table ≡ [] }
    {
        Rows {
            tables: array::from_fn(|_| TableRows::new(alloc)),
        }
    }

    /// Adds a row at the end of a table, and answers its number.
    pub fn push(&mut self, table: u8, cells: &[u32]) -> Result<u32, NoMemory>
        requires room { rows_in self.old table < 2 ^ 24 - 1 }
        requires cells { IsRowOf table cells.now }
        ensures added { OnOk result (AddsRow self.old self.new table cells.now) }
        ensures number { IfOk result (λ row. row ≡ rows_in self.new table) }
        ensures err { OnErr result (self.new ≡ self.old) }
    {
        let rows = &mut self.tables[usize::from(table)];
        rows.push(cells)?;
        Ok(rows.len() as u32)
    }

    /// How many rows a table has.
    pub fn len(&self, table: u8) -> u32
        ensures { result ≡ rows_in self.now table }
    {
        match self.tables.get(usize::from(table)) {
            Some(rows) => rows.len() as u32,
            None => 0,
        }
    }

    /// The rows of a table of the profile.
    pub(crate) fn table(&self, table: u8) -> &TableRows
        requires { table < 45 }
        ensures { result.now ≡ rows_of self.now table }
    {
        &self.tables[usize::from(table)]
    }

    /// The row counts, by table.
    pub(crate) fn counts(&self) -> [u32; 45]
        ensures there { length result ≡ 45 }
        ensures counts { (table : ℕ) → slice_index result table ≡ rows_in self.now table }
        ensures rows { AreRows self.now }
    {
        let mut counts = [0; 45];
        for (table, rows) in self.tables.iter().enumerate() {
            counts[table] = rows.len() as u32;
        }
        counts
    }
}

ghost use Rattle.std.specs.Prelude.{◌≡◌, ◌<◌, ◌≤◌, ◌↔◌, ℕ, length, IsTrue, IfOk, IfErr, OnOk, IsOk};
ghost use Rattle.metadata_tables.specs.Schema.{columns_of};
ghost use Rattle.metadata_tables.specs.Stream.{row_count, cell, IsRow};
ghost use Rattle.metadata_tables.specs.Faults.{IsWhole, IsFault};
ghost use Rattle.metadata_tables.specs.Order.{IsSortedTable, IsInOrder};

use crate::TableFault;
use crate::header::read_header;
use crate::index::{TableIndex, index_tables};
use crate::number::number_at;
use crate::order::sort_columns;
use std::marker::Model;

/// A stream `#~` that has been looked over. Contracts see it as the stream's bytes.
#[derive(Drop)]
pub struct TableView<'a> {
    stream: &'a [u8],
    indexes: [TableIndex; 45],
}

impl<'a> Model for TableView<'a> {
    ghost use Rattle.std.specs.Prelude.{List, ℕ};

    ghost Value = { List ℕ };

    ghost use Rattle.metadata_tables.specs.Layout.{IsIndexed};

    ghost view = { λ v. v.stream.now };

    ghost invariant = { λ v. IsIndexed v.stream.now v.indexes };
}

impl<'a> TableView<'a> {
    /// Looks over the bytes of a stream `#~` (ECMA-335 II.24.2.6). Answers the first fault: I6 at table 0,
    /// row 0, where the header or the row counts can't be read; I6 at row 0 of the first table that isn't
    /// in the profile; I7 at the first row that doesn't lie in the stream.
    pub fn open(stream: &'a [u8]) -> Result<TableView<'a>, TableFault>
        ensures opened { IfOk result (λ view. view ≡ stream.now) }
        ensures whole { OnOk result (IsWhole stream.now) }
        ensures fault { IfErr result (λ fault. IsFault stream.now fault) }
        ensures only { IsWhole stream.now → IsOk result }
    {
        let header = read_header(stream)?;
        let indexes = index_tables(stream, &header)?;
        Ok(TableView { stream, indexes })
    }

    /// How many rows a table has.
    pub fn rows(&self, table: u8) -> u32
        ensures rows { result ≡ row_count self.now table }
        ensures whole { IsWhole self.now }
    {
        match self.indexes.get(usize::from(table)) {
            Some(index) => index.rows,
            None => 0,
        }
    }

    /// The number in a cell: a row of a table counted from 1, and a column counted from 0.
    pub fn cell(&self, table: u8, row: u32, column: u8) -> u32
        requires row { IsRow self.now table row }
        requires column { column < length (columns_of table) }
        ensures { result ≡ cell self.now table row column }
    {
        let indexes = &self.indexes;
        let index = &indexes[usize::from(table)];
        let column = usize::from(column);
        let before = (row - 1) as usize * usize::from(index.layout.size);
        let at = index.start + before + usize::from(index.layout.places[column]);
        number_at(self.stream, at, index.layout.widths[column])
    }

    /// Whether the rows of a table keep the order that the standard asks of it: sorted by its keys, ties
    /// allowed. True for a table of which it asks none.
    pub fn sorted(&self, table: u8) -> bool
        ensures { IsTrue result ↔ IsSortedTable self.now table }
    {
        for row in 1..self.rows(table) {
            if !self.in_order(table, row + 1) {
                return false;
            }
        }
        true
    }

    /// Whether a row keeps the order that the standard asks of its table (ECMA-335 II.22): by its keys it
    /// doesn't come before the row above it. True for a table of which it asks none.
    pub fn in_order(&self, table: u8, row: u32) -> bool
        requires above { 1 < row }
        requires row { row ≤ row_count self.now table }
        ensures { IsTrue result ↔ IsInOrder self.now table row }
    {
        for column in sort_columns(table) {
            let above = self.cell(table, row - 1, *column);
            let here = self.cell(table, row, *column);
            if above != here {
                return above < here;
            }
        }
        true
    }
}

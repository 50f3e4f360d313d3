ghost use Rattle.std.specs.Prelude.{◌≡◌, ◌≤◌, ◌<◌, ◌↔◌, ◌⊎◌, ℕ, IsTrue, false};
ghost use Rattle.metadata_tables.specs.Faults.{IsEarlier};
ghost use Rattle.metadata_tables.specs.Indexes.{run_row};
ghost use Rattle.image_model.specs.Rows.{count_of, HasRow};
ghost use Rattle.image_model.specs.Cells.{HasIndexes, IsIndex};

use crate::standing::rows_stand_in_tables;
use demand_search::Demand;
use image_streams::Image;
use metadata_tables::{Column, columns, unpack_coded};
use std::marker::Model;

/// Indexes lie in their range (I8): a simple index names a row, a run begins at a row or one behind the last, a coded index has
/// a known tag and names a row, or is nil where it may be.
#[derive(Drop)]
pub struct Indexes<'i, 'a> {
    image: &'i Image<'a>,
}

impl<'i, 'a> Model for Indexes<'i, 'a> {
    ghost use Rattle.std.specs.Prelude.{ℕ, List};

    ghost Value = { List ℕ };

    ghost view = { λ it. it.image.now };
}

impl<'i, 'a> Indexes<'i, 'a> {
    /// The demand on an image.
    pub fn new(image: &'i Image<'a>) -> Indexes<'i, 'a>
        ensures { result ≡ image.now }
    {
        Indexes { image }
    }
}

impl<'i, 'a> Demand for Indexes<'i, 'a> {
    ghost use Rattle.image_model.specs.Rows.{count_of, HasRow};
    ghost use Rattle.image_model.specs.Cells.{HasIndexes};

    ghost meets = { λ it table row. HasRow it table row → HasIndexes it table row };

    ghost rows = { λ it table. count_of it table };

    fn asks(&self, _table: u8) -> bool {
        true
    }

    fn count(&self, table: u8) -> u32 {
        self.image.tables().rows(table)
    }

    fn row_meets(&self, table: u8, row: u32) -> bool {
        row == 0 || have_indexes(self.image, table, row)
    }

    fn others_meet(&self) {
        rows_stand_in_tables(self.image);
    }
}

/// Whether each index in a row lies in its range.
fn have_indexes(image: &Image<'_>, table: u8, row: u32) -> bool
    requires { HasRow image.now table row }
    ensures { IsTrue result ↔ HasIndexes image.now table row }
{
    for (number, column) in columns(table).iter().enumerate() {
        let value = image.tables().cell(table, row, number as u8);
        if !is_index(image, column, value) {
            return false;
        }
    }
    true
}

/// Whether the value in a cell is an index in its range, where its column has indexes.
fn is_index(image: &Image<'_>, column: &Column, value: u32) -> bool
    ensures { IsTrue result ↔ IsIndex image.now column.now value }
{
    match column {
        Column::Row(table) => has_row(image, *table, value),
        Column::Run(table) => {
            let count = image.tables().rows(*table);
            let start = run_row(count, value);
            0 < start && start - 1 <= count
        }
        Column::Tagged(kind, nil) => {
            if *nil && value == 0 {
                return true;
            }
            match unpack_coded(*kind, value) {
                Some((table, row)) => has_row(image, table, row),
                None => false,
            }
        }
        Column::Number(_) | Column::Strings(_) | Column::Guids(_) | Column::Blobs(_) => true,
    }
}

/// Whether a table has a row.
pub(crate) fn has_row(image: &Image<'_>, table: u8, row: u32) -> bool
    ensures { IsTrue result ↔ HasRow image.now table row }
{
    0 < row && row <= image.tables().rows(table)
}

/// The row at which a run begins in a table of `count` rows, by its cell: 0 stands for 65,536 where the column has two bytes and the
/// table 65,535 rows.
pub(crate) fn run_row(count: u32, cell: u32) -> u32
    ensures { result ≡ run_row count cell }
{
    if count == 65_535 && cell == 0 {
        65_536
    } else {
        cell
    }
}

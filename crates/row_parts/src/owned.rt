ghost use Rattle.std.specs.Prelude.{◌≡◌, ◌<◌, ◌≤◌, ◌-◌, ◌^◌, ℕ, IfOk, length};
ghost use Rattle.std.specs.List.{AllZip};
ghost use Rattle.image_model.specs.Reading.{IsGiven};
ghost use Rattle.image_model.specs.Rows.{HasRow, rows_with};
ghost use Rattle.image_model.specs.Streams.{tables_of};
ghost use Rattle.metadata_tables.specs.Schema.{columns_of};
ghost use Rattle.metadata_tables.specs.Stream.{cell};
ghost use Rattle.row_groups.specs.Ranges.{Ascends, cell_of};

use crate::part::{Part, read_all, read_one};
use il_base::{Items, NoMemory};
use image_streams::Image;
use row_groups::owned_rows;
use std::alloc::Global;

/// The parts of the rows of a table that hold a value in a column by which the table is in order, in row order.
pub fn read_owned<X: Drop, P: Part<X>>(
    alloc: Global,
    image: &Image<'_>,
    part: &P,
    table: u8,
    column: u8,
    value: u64,
) -> Result<Items<X>, NoMemory>
    requires small { value < 2 ^ 64 - 1 }
    requires column { column < length (columns_of table) }
    requires order { Ascends image.now table column }
    requires there { (row : ℕ) → HasRow image.now table row → cell (tables_of image.now) table row column ≡ value → P.there part.now row }
    ensures { IfOk result (AllZip (P.gives part.now) (rows_with image.now table (cell_of table column) value)) }
{
    let rows = owned_rows(image, table, column, value);
    read_all(alloc, part, rows)
}

/// The part of the one row of a table that holds a value in a column by which the table is in order, where there is one.
pub fn read_given<X: Drop, P: Part<X>>(
    alloc: Global,
    image: &Image<'_>,
    part: &P,
    table: u8,
    column: u8,
    value: u64,
) -> Result<Option<X>, NoMemory>
    requires small { value < 2 ^ 64 - 1 }
    requires column { column < length (columns_of table) }
    requires order { Ascends image.now table column }
    requires one { length (rows_with image.now table (cell_of table column) value) ≤ 1 }
    requires there { (row : ℕ) → HasRow image.now table row → cell (tables_of image.now) table row column ≡ value → P.there part.now row }
    ensures { IfOk result (IsGiven (P.gives part.now) (rows_with image.now table (cell_of table column) value)) }
{
    let rows = owned_rows(image, table, column, value);
    read_one(alloc, part, rows)
}

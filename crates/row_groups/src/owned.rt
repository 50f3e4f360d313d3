ghost use Rattle.std.specs.Prelude.{◌≡◌, ◌≤◌, ◌<◌, ◌+◌, ◌-◌, ◌^◌, ℕ, length};
ghost use Rattle.std.specs.List.{range_with_len};
ghost use Rattle.metadata_tables.specs.Schema.{columns_of};
ghost use Rattle.metadata_tables.specs.Stream.{cell};
ghost use Rattle.image_model.specs.Rows.{count_of, rows_with};
ghost use Rattle.image_model.specs.Streams.{tables_of};
ghost use Rattle.row_groups.specs.Ranges.{Ascends, cell_of};

use image_streams::Image;

/// Rows that stand side by side: the first, and how many.
#[derive(Debug, Clone, Copy)]
pub struct Rows {
    /// The first of them.
    pub first: u64,
    /// How many there are.
    pub count: u64,
}

/// The rows of a table that hold a value in a column by which the table is in order.
pub fn owned_rows(image: &Image<'_>, table: u8, column: u8, value: u64) -> Rows
    requires small { value < 2 ^ 64 - 1 }
    requires column { column < length (columns_of table) }
    requires order { Ascends image.now table column }
    ensures rows { rows_with image.now table (cell_of table column) value ≡ range_with_len result.first result.count }
    ensures within { result.first + result.count ≤ count_of image.now table + 1 }
    ensures some { 0 < result.first }
    ensures few { result.first + result.count ≤ 2 ^ 32 }
{
    let first = first_from(image, table, column, value);
    let end = first_from(image, table, column, value + 1);
    Rows {
        first,
        count: end - first,
    }
}

/// The first row of a table that holds at least a value in a column by which the table is in order, or the one behind the last.
fn first_from(image: &Image<'_>, table: u8, column: u8, value: u64) -> u64
    requires column { column < length (columns_of table) }
    requires order { Ascends image.now table column }
    ensures some { 0 < result }
    ensures within { result ≤ count_of image.now table + 1 }
    ensures few { result ≤ 2 ^ 32 }
    ensures before { (row : ℕ) → 0 < row → row < result → cell (tables_of image.now) table row column < value }
    ensures behind { (row : ℕ) → result ≤ row → row ≤ count_of image.now table → value ≤ cell (tables_of image.now) table row column }
{
    let tables = image.tables();
    let mut first = 1;
    let mut end = u64::from(tables.rows(table)) + 1;
    while first < end {
        let middle = first + (end - first) / 2;
        if u64::from(tables.cell(table, middle as u32, column)) < value {
            first = middle + 1;
        } else {
            end = middle;
        }
    }
    first
}

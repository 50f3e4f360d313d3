ghost use Rattle.std.specs.Prelude.{◌≡◌, ◌+◌, ◌≤◌, ◌<◌, ◌^◌, length};
ghost use Rattle.std.specs.List.{range_with_len};
ghost use Rattle.image_model.specs.Rows.{HasRow, run_end};
ghost use Rattle.metadata_tables.specs.Schema.{columns_of};
ghost use Rattle.row_demands.specs.Members.{run_begin, run_of};

use image_streams::Image;
use row_groups::{Owners, Rows};

/// The rows that belong to an owner's row (II.22), where its run ends no earlier than it begins.
pub fn run_rows(image: &Image<'_>, owners: Owners, row: u32) -> Rows
    requires column { owners.column < length (columns_of owners.table) }
    requires there { HasRow image.now owners.table row }
    ensures rows { run_of image.now owners.table owners.column owners.members row ≡ range_with_len result.first result.count }
    ensures first { result.first ≡ run_begin image.now owners.table owners.column owners.members row }
    ensures few { result.first + result.count ≤ 2 ^ 32 }
{
    let first = begin(image, owners, row);
    let end = end(image, owners, row);
    Rows {
        first,
        count: end.saturating_sub(first),
    }
}

/// Where the run of a row begins.
fn begin(image: &Image<'_>, owners: Owners, row: u32) -> u64
    requires column { owners.column < length (columns_of owners.table) }
    requires there { HasRow image.now owners.table row }
    ensures begin { result ≡ run_begin image.now owners.table owners.column owners.members row }
    ensures few { result < 2 ^ 32 }
{
    let tables = image.tables();
    let cell = tables.cell(owners.table, row, owners.column);
    if tables.rows(owners.members) == 65_535 && cell == 0 {
        65_536
    } else {
        u64::from(cell)
    }
}

/// Where the run of a row ends: where that of the next row begins, or behind the last member.
fn end(image: &Image<'_>, owners: Owners, row: u32) -> u64
    requires column { owners.column < length (columns_of owners.table) }
    requires there { HasRow image.now owners.table row }
    ensures end { result ≡ run_end image.now owners.table (run_begin image.now owners.table owners.column owners.members) owners.members row }
    ensures few { result ≤ 2 ^ 32 }
{
    let tables = image.tables();
    if row == tables.rows(owners.table) {
        u64::from(tables.rows(owners.members)) + 1
    } else {
        begin(image, owners, row + 1)
    }
}

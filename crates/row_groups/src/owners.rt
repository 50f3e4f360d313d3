ghost use Rattle.std.specs.Prelude.{◌≡◌, ◌≤◌, ◌<◌, ◌↔◌, ℕ, IsTrue, Contains, length};
ghost use Rattle.metadata_tables.specs.Schema.{columns_of};
ghost use Rattle.image_model.specs.Rows.{count_of, HasRow, run_end};
ghost use Rattle.image_model.specs.Structure.{Rises};
ghost use Rattle.row_demands.specs.Members.{run_begin, run_of};

use image_streams::Image;

/// Rows of a table each of which owns a run of rows of another (II.22): the owners' table, the column that says where a run
/// begins, and the members' table.
#[derive(Debug, Clone, Copy)]
pub struct Owners {
    /// The table of the owners.
    pub table: u8,
    /// The column that says where a run begins.
    pub column: u8,
    /// The table of the members.
    pub members: u8,
}

/// The row that owns a member, where runs rise and the first begins no later than the member: the last that begins so.
pub fn owner_of(image: &Image<'_>, owners: Owners, member: u32) -> u32
    requires column { owners.column < length (columns_of owners.table) }
    requires rise { (row : ℕ) → HasRow image.now owners.table row → Rises (run_begin image.now owners.table owners.column owners.members) row }
    requires there { HasRow image.now owners.members member }
    requires some { 0 < count_of image.now owners.table }
    requires first { run_begin image.now owners.table owners.column owners.members 1 ≤ member }
    ensures there { HasRow image.now owners.table result }
    ensures owns { Contains (run_of image.now owners.table owners.column owners.members result) member }
    ensures only { (other : ℕ) → HasRow image.now owners.table other → Contains (run_of image.now owners.table owners.column owners.members other) member → other ≡ result }
{
    let mut last = 1;
    let mut end = u64::from(image.tables().rows(owners.table)) + 1;
    while last + 1 < end {
        let middle = last + (end - last) / 2;
        if begin(image, owners, middle as u32) <= member {
            last = middle;
        } else {
            end = middle;
        }
    }
    last as u32
}

/// Where the run of a row begins.
fn begin(image: &Image<'_>, owners: Owners, row: u32) -> u32
    requires column { owners.column < length (columns_of owners.table) }
    requires there { HasRow image.now owners.table row }
    ensures { result ≡ run_begin image.now owners.table owners.column owners.members row }
{
    let tables = image.tables();
    let cell = tables.cell(owners.table, row, owners.column);
    if tables.rows(owners.members) == 65_535 && cell == 0 {
        65_536
    } else {
        cell
    }
}

/// Whether a member lies in the run of a row.
pub fn has_member(image: &Image<'_>, owners: Owners, row: u32, member: u32) -> bool
    requires column { owners.column < length (columns_of owners.table) }
    requires there { HasRow image.now owners.table row }
    ensures { IsTrue result ↔ Contains (run_of image.now owners.table owners.column owners.members row) member }
{
    begin(image, owners, row) <= member && u64::from(member) < end(image, owners, row)
}

/// Where the run of a row ends: where that of the next row begins, or behind the last member.
fn end(image: &Image<'_>, owners: Owners, row: u32) -> u64
    requires column { owners.column < length (columns_of owners.table) }
    requires there { HasRow image.now owners.table row }
    ensures { result ≡ run_end image.now owners.table (run_begin image.now owners.table owners.column owners.members) owners.members row }
{
    let tables = image.tables();
    if row == tables.rows(owners.table) {
        u64::from(tables.rows(owners.members)) + 1
    } else {
        u64::from(begin(image, owners, row + 1))
    }
}

ghost use Rattle.std.specs.Prelude.{◌≡◌, ◌≤◌, ◌<◌, ◌↔◌, ◌+◌, ℕ, List, IsTrue, IfOk, length};
ghost use Rattle.metadata_tables.specs.Schema.{columns_of};
ghost use Rattle.image_model.specs.Rows.{count_of, HasRow};
ghost use Rattle.image_model.specs.Structure.{Rises, LiesIn};
ghost use Rattle.row_demands.specs.Members.{run_begin, run_of, AreBegins};

use crate::indexes::run_row;
use il_base::NoMemory;
use image_streams::Image;
use std::alloc::Global;

/// Rows of a table each of which owns a run of rows of another (II.22): the owners' table, the column that says where a run
/// begins, and the members' table.
#[derive(Clone, Copy)]
pub(crate) struct Owners {
    pub(crate) table: u8,
    pub(crate) column: u8,
    pub(crate) members: u8,
}

impl Owners {
    /// Where the run of a row begins.
    pub(crate) fn begin(&self, image: &Image<'_>, row: u32) -> u32
        requires there { HasRow image.now self.now.table row }
        requires column { self.now.column < length (columns_of self.now.table) }
        ensures { result ≡ run_begin image.now self.now.table self.now.column self.now.members row }
    {
        let tables = image.tables();
        run_row(
            tables.rows(self.members),
            tables.cell(self.table, row, self.column),
        )
    }

    /// Whether the run of a row doesn't begin before that of the row above it.
    pub(crate) fn rises(&self, image: &Image<'_>, row: u32) -> bool
        requires there { HasRow image.now self.now.table row }
        requires column { self.now.column < length (columns_of self.now.table) }
        ensures { IsTrue result ↔ Rises (run_begin image.now self.now.table self.now.column self.now.members) row }
    {
        row <= 1 || self.begin(image, row - 1) <= self.begin(image, row)
    }

    /// Whether a member lies in the run of a row, where the runs of all rows rise: it stands behind the first beginning.
    pub(crate) fn hold(&self, image: &Image<'_>, member: u32) -> bool
        requires there { HasRow image.now self.now.members member }
        requires column { self.now.column < length (columns_of self.now.table) }
        requires rise { (row : ℕ) → HasRow image.now self.now.table row → Rises (run_begin image.now self.now.table self.now.column self.now.members) row }
        ensures { IsTrue result ↔ LiesIn image.now self.now.table (run_of image.now self.now.table self.now.column self.now.members) member }
    {
        image.tables().rows(self.table) > 0 && self.begin(image, 1) <= member
    }

    /// A mark for each member, and one for the place behind the last: whether a run begins there.
    pub(crate) fn begins(&self, alloc: Global, image: &Image<'_>) -> Result<Vec<bool>, NoMemory>
        requires column { self.now.column < length (columns_of self.now.table) }
        requires within { (row : ℕ) → HasRow image.now self.now.table row → run_begin image.now self.now.table self.now.column self.now.members row ≤ count_of image.now self.now.members + 1 }
        ensures { IfOk result (λ marks. AreBegins image.now self.now.table self.now.column self.now.members marks.items) }
    {
        let tables = image.tables();
        let count = tables.rows(self.members) as usize;
        let mut marks = Vec::from_elem(alloc, false, count + 2)?;
        for row in 0..tables.rows(self.table) {
            marks[self.begin(image, row + 1) as usize] = true;
        }
        Ok(marks)
    }
}

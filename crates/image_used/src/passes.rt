ghost use Rattle.std.specs.Prelude.{◌≡◌, ◌↔◌, ℕ, [], IsTrue, OnOk};
ghost use Rattle.image_model.specs.Used.{IsReference};
ghost use Rattle.image_used.specs.Going.{IsGoing, Passed, RowsOf, OthersOf, OthersBelow, NoRows};

use crate::spread::Spread;
use il_base::NoMemory;
use image_streams::Image;
use std::alloc::Global;

/// One more than the greatest number of a table.
const TABLES: u8 = 45;

/// Whether a table is one of references.
fn is_reference(table: u8) -> bool
    ensures { IsTrue result ↔ IsReference table }
{
    table == 0x01 || table == 0x0A || table == 0x11 || table == 0x1B || table == 0x2B
}

impl Spread {
    /// Marks what the rows of all tables but those of references name.
    pub(crate) fn mark_declared(&mut self, alloc: Global, image: &Image<'_>) -> Result<(), NoMemory>
        requires { IsGoing image.now self.old.marks self.old.todo self.old.seen }
        ensures { OnOk result (Passed image.now self.old.marks self.new.marks self.new.todo self.new.seen (OthersBelow image.now 45)) }
    {
        for table in 0..TABLES {
            self.mark_by_table(alloc, image, table)?;
        }
        Ok(())
    }

    /// Marks what the rows of a table name, where it isn't one of references.
    fn mark_by_table(&mut self, alloc: Global, image: &Image<'_>, table: u8) -> Result<(), NoMemory>
        requires { IsGoing image.now self.old.marks self.old.todo self.old.seen }
        ensures { OnOk result (Passed image.now self.old.marks self.new.marks self.new.todo self.new.seen (OthersOf image.now table)) }
    {
        if is_reference(table) {
            return Ok(());
        }
        self.mark_by_rows(alloc, image, table)
    }

    /// Marks what the rows of a table name that isn't one of references.
    fn mark_by_rows(&mut self, alloc: Global, image: &Image<'_>, table: u8) -> Result<(), NoMemory>
        requires going { IsGoing image.now self.old.marks self.old.todo self.old.seen }
        requires other { IsReference table → ⊥ }
        ensures { OnOk result (Passed image.now self.old.marks self.new.marks self.new.todo self.new.seen (RowsOf image.now table)) }
    {
        for row in 0..image.tables().rows(table) {
            self.mark_named(alloc, image, table, row + 1)?;
        }
        Ok(())
    }

    /// Marks what the rows name that wait, until none waits.
    pub(crate) fn mark_waiting(&mut self, alloc: Global, image: &Image<'_>) -> Result<(), NoMemory>
        requires { IsGoing image.now self.old.marks self.old.todo self.old.seen }
        ensures going { OnOk result (Passed image.now self.old.marks self.new.marks self.new.todo self.new.seen NoRows) }
        ensures done { OnOk result (self.new.todo ≡ []) }
    {
        while let Some(at) = self.todo.pop() {
            self.mark_named(alloc, image, at.table, at.row)?;
        }
        Ok(())
    }
}

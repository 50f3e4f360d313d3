ghost use Rattle.std.specs.Prelude.{◌≡◌, OnOk};
ghost use Rattle.image_model.specs.Rows.{count_of};
ghost use Rattle.method_states.specs.Marks.{IsMarked};
ghost use Rattle.method_states.specs.States.{AreNamedByBodies};
ghost use Rattle.image_used.specs.Spreading.{Spreads, IsMarkedRow, MarkedIn};

use crate::spread::Spread;
use il_base::NoMemory;
use image_streams::Image;
use method_states::RowMarks;

impl Spread {
    /// Marks the rows that bodies name.
    pub(crate) fn mark_by_bodies(
        &mut self,
        image: &Image<'_>,
        named: &RowMarks,
    ) -> Result<(), NoMemory>
        requires { AreNamedByBodies image.now named.now }
        ensures marked { OnOk result (Spreads self.old.marks self.old.todo self.new.marks self.new.todo (IsMarked named.now)) }
        ensures seen { self.new.seen ≡ self.old.seen }
    {
        self.mark_table(image, named, 0x0A)?;
        self.mark_table(image, named, 0x11)?;
        self.mark_table(image, named, 0x1B)?;
        self.mark_table(image, named, 0x2B)
    }

    /// Marks those of one table.
    fn mark_table(&mut self, image: &Image<'_>, named: &RowMarks, table: u8) -> Result<(), NoMemory>
        ensures marked { OnOk result (Spreads self.old.marks self.old.todo self.new.marks self.new.todo (MarkedIn named.now table (count_of image.now table))) }
        ensures seen { self.new.seen ≡ self.old.seen }
    {
        for row in 0..image.tables().rows(table) {
            self.mark_where(named, table, row + 1)?;
        }
        Ok(())
    }

    /// Marks a row where it is marked elsewhere.
    fn mark_where(&mut self, named: &RowMarks, table: u8, row: u32) -> Result<(), NoMemory>
        ensures marked { OnOk result (Spreads self.old.marks self.old.todo self.new.marks self.new.todo (IsMarkedRow named.now table row)) }
        ensures seen { self.new.seen ≡ self.old.seen }
    {
        if named.is_marked(table, row) {
            return self.mark(table, row);
        }
        Ok(())
    }
}

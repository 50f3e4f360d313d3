ghost use Rattle.std.specs.Prelude.{◌≡◌, OnOk};
ghost use Rattle.image_model.specs.Rows.{HasRow};
ghost use Rattle.image_model.specs.Used.{CellNames};
ghost use Rattle.image_used.specs.Spreading.{Spreads, ColumnNames};

use crate::spread::Spread;
use il_base::NoMemory;
use image_streams::Image;
use metadata_tables::{Column, columns};

impl Spread {
    /// Marks the rows that the cells of a row name by coded indexes.
    pub(crate) fn mark_cells(
        &mut self,
        image: &Image<'_>,
        table: u8,
        row: u32,
    ) -> Result<(), NoMemory>
        requires { HasRow image.now table row }
        ensures marked { OnOk result (Spreads self.old.marks self.old.todo self.new.marks self.new.todo (CellNames image.now table row)) }
        ensures seen { self.new.seen ≡ self.old.seen }
    {
        for (number, column) in columns(table).iter().enumerate() {
            let value = image.tables().cell(table, row, number as u8);
            self.mark_cell(column, value)?;
        }
        Ok(())
    }

    /// Marks the row that the value in a cell names, where its column has coded indexes.
    fn mark_cell(&mut self, column: &Column, value: u32) -> Result<(), NoMemory>
        ensures marked { OnOk result (Spreads self.old.marks self.old.todo self.new.marks self.new.todo (ColumnNames column.now value)) }
        ensures seen { self.new.seen ≡ self.old.seen }
    {
        match column {
            Column::Tagged(kind, _) => self.mark_coded(*kind, value),
            Column::Number(_) => Ok(()),
            Column::Strings(_) => Ok(()),
            Column::Guids(_) => Ok(()),
            Column::Blobs(_) => Ok(()),
            Column::Row(_) => Ok(()),
            Column::Run(_) => Ok(()),
        }
    }
}

ghost use Rattle.std.specs.Prelude.{◌≡◌, ◌≤◌, ◌<◌, ◌↔◌, ◌⊎◌, ℕ, IsTrue, false, codes};
ghost use Rattle.heaps.specs.Content.{HasText};
ghost use Rattle.metadata_tables.specs.Faults.{IsEarlier};
ghost use Rattle.metadata_tables.specs.CodedIndex.{packed};
ghost use Rattle.image_model.specs.Rows.{count_of, HasRow};
ghost use Rattle.image_model.specs.Structure.{IsModuleType};

use crate::module_type::is_module_type;
use crate::standing::rows_stand_in_tables;
use demand_search::Demand;
use image_streams::Image;
use std::marker::Model;

/// The rows that must be there (I10): one in Module and in Assembly, and at least one in TypeDef, whose first is `<Module>`.
#[derive(Drop)]
pub struct Manifest<'i, 'a> {
    image: &'i Image<'a>,
}

impl<'i, 'a> Model for Manifest<'i, 'a> {
    ghost use Rattle.std.specs.Prelude.{ℕ, List};

    ghost Value = { List ℕ };

    ghost view = { λ it. it.image.now };
}

impl<'i, 'a> Manifest<'i, 'a> {
    /// The demand on an image.
    pub fn new(image: &'i Image<'a>) -> Manifest<'i, 'a>
        ensures { result ≡ image.now }
    {
        Manifest { image }
    }
}

impl<'i, 'a> Demand for Manifest<'i, 'a> {
    ghost use Rattle.image_model.specs.Rows.{count_of};
    ghost use Rattle.image_model.specs.Structure.{HasManifest};

    ghost meets = { λ it table row. HasManifest it table row };

    ghost rows = { λ it table. count_of it table };

    fn asks(&self, table: u8) -> bool {
        table == 0x00 || table == 0x02 || table == 0x20
    }

    fn count(&self, table: u8) -> u32 {
        self.image.tables().rows(table)
    }

    fn row_meets(&self, table: u8, row: u32) -> bool {
        match (table, row) {
            (0x00 | 0x20, 0) => self.image.tables().rows(table) == 1,
            (0x02, 0) => self.image.tables().rows(table) > 0,
            (0x02, 1) => is_module_type(self.image),
            _ => true,
        }
    }

    fn others_meet(&self) {
        rows_stand_in_tables(self.image);
    }
}

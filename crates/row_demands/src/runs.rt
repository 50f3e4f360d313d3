ghost use Rattle.std.specs.Prelude.{◌≡◌, ◌≤◌, ◌<◌, ◌↔◌, ◌⊎◌, ◌-◌, ℕ, IsTrue, IfOk, false, length};
ghost use Rattle.metadata_tables.specs.Faults.{IsEarlier};
ghost use Rattle.image_model.specs.Cells.{HasIndexes};
ghost use Rattle.image_model.specs.Columns.{param_sequence, event_map_parent, property_map_parent};
ghost use Rattle.image_model.specs.Rows.{count_of, HasRow};
ghost use Rattle.image_model.specs.Structure.{HasRuns, IsFirstWith, RisesInMethod, Rises, LiesIn};
ghost use Rattle.row_demands.specs.Members.{run_begin, run_of, AreBegins, AreFirsts};
ghost use Rattle.metadata_tables.specs.Schema.{columns_of};
ghost use Rattle.metadata_tables.specs.Stream.{cell};
ghost use Rattle.image_model.specs.Streams.{tables_of};

use crate::firsts::firsts_of;
use crate::run_checks::{
    PARAMS, event_map_meets, event_meets, field_meets, method_meets, param_meets,
    property_map_meets, property_meets, type_meets,
};
use crate::standing::rows_stand_in_tables;
use demand_search::Demand;
use il_base::NoMemory;
use image_streams::Image;
use std::alloc::Global;
use std::marker::Model;

/// Runs are right (I11): they rise and stay in their table, each member lies in one, a type has one map row of a kind at most,
/// and the sequences of a method's params rise.
#[derive(Drop)]
pub struct Runs<'i, 'a> {
    image: &'i Image<'a>,
    // Whether a method's params begin at a row of Param.
    begins: Vec<bool>,
    // The first row of EventMap and of PropertyMap for each type.
    event_maps: Vec<u32>,
    property_maps: Vec<u32>,
}

impl<'i, 'a> Model for Runs<'i, 'a> {
    ghost use Rattle.std.specs.Prelude.{ℕ, List, ◌<◌};
    ghost use Rattle.image_model.specs.Rows.{count_of, HasRow};
    ghost use Rattle.row_demands.specs.Members.{run_begin, AreBegins, AreFirsts};

    ghost Value = { List ℕ };

    ghost view = { λ it. it.image.now };

    ghost invariant = { λ it. ((row : ℕ) → HasRow it.image.now 0x06 row → 0 < run_begin it.image.now 0x06 5 0x08 row) × (AreBegins it.image.now 0x06 5 0x08 it.begins.items
        × (AreFirsts it.image.now 0x12 (count_of it.image.now 0x02) it.event_maps.items
        × AreFirsts it.image.now 0x15 (count_of it.image.now 0x02) it.property_maps.items)) };
}

impl<'i, 'a> Runs<'i, 'a> {
    /// The demand on an image whose indexes lie in their ranges. Looks through Param, EventMap and PropertyMap once.
    pub fn new(alloc: Global, image: &'i Image<'a>) -> Result<Runs<'i, 'a>, NoMemory>
        requires { (table row : ℕ) → HasRow image.now table row → HasIndexes image.now table row }
        ensures { IfOk result (λ it. it ≡ image.now) }
    {
        let types = image.tables().rows(0x02);
        let begins = PARAMS.begins(alloc, image)?;
        let event_maps = firsts_of(alloc, image, 0x12, types)?;
        let property_maps = firsts_of(alloc, image, 0x15, types)?;
        Ok(Runs {
            image,
            begins,
            event_maps,
            property_maps,
        })
    }
}

impl<'i, 'a> Demand for Runs<'i, 'a> {
    ghost use Rattle.image_model.specs.Rows.{count_of};
    ghost use Rattle.image_model.specs.Structure.{HasRuns};

    ghost meets = { λ it table row. HasRuns it table row };

    ghost rows = { λ it table. count_of it table };

    fn asks(&self, _table: u8) -> bool {
        true
    }

    fn count(&self, table: u8) -> u32 {
        self.image.tables().rows(table)
    }

    fn row_meets(&self, table: u8, row: u32) -> bool {
        if row == 0 {
            return true;
        }
        match table {
            0x02 => type_meets(self.image, row),
            0x04 => field_meets(self.image, row),
            0x06 => method_meets(self.image, row),
            0x08 => param_meets(self.image, &self.begins, row),
            0x12 => event_map_meets(self.image, &self.event_maps, row),
            0x14 => event_meets(self.image, row),
            0x15 => property_map_meets(self.image, &self.property_maps, row),
            0x17 => property_meets(self.image, row),
            _ => true,
        }
    }

    fn others_meet(&self) {
        rows_stand_in_tables(self.image);
    }
}

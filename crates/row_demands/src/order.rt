ghost use Rattle.std.specs.Prelude.{◌≡◌, ◌≤◌, ◌<◌, ◌↔◌, ◌⊎◌, ℕ, IsTrue, false};
ghost use Rattle.metadata_tables.specs.Faults.{IsEarlier};

use crate::standing::rows_stand_in_tables;
use demand_search::Demand;
use image_streams::Image;
use std::marker::Model;

/// Sorted tables are in order (I12): no row comes before the one above it.
#[derive(Drop)]
pub struct Order<'i, 'a> {
    image: &'i Image<'a>,
}

impl<'i, 'a> Model for Order<'i, 'a> {
    ghost use Rattle.std.specs.Prelude.{ℕ, List};

    ghost Value = { List ℕ };

    ghost view = { λ it. it.image.now };
}

impl<'i, 'a> Order<'i, 'a> {
    /// The demand on an image.
    pub fn new(image: &'i Image<'a>) -> Order<'i, 'a>
        ensures { result ≡ image.now }
    {
        Order { image }
    }
}

impl<'i, 'a> Demand for Order<'i, 'a> {
    ghost use Rattle.image_model.specs.Rows.{count_of};
    ghost use Rattle.image_model.specs.Structure.{IsSorted};

    ghost meets = { λ it table row. IsSorted it table row };

    ghost rows = { λ it table. count_of it table };

    fn asks(&self, _table: u8) -> bool {
        true
    }

    fn count(&self, table: u8) -> u32 {
        self.image.tables().rows(table)
    }

    fn row_meets(&self, table: u8, row: u32) -> bool {
        row <= 1 || self.image.tables().in_order(table, row)
    }

    fn others_meet(&self) {
        rows_stand_in_tables(self.image);
    }
}

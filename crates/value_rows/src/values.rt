ghost use Rattle.std.specs.Prelude.{◌≡◌, ◌≤◌, ◌<◌, ◌↔◌, ◌⊎◌, ℕ, IsTrue, false};
ghost use Rattle.image_model.specs.Members.{AreDistinct};
ghost use Rattle.image_model.specs.Rows.{count_of, HasRow};
ghost use Rattle.metadata_tables.specs.Faults.{IsEarlier};
ghost use Rattle.attribute_demands.specs.Judging.{CanJudge, ByNames};
ghost use Rattle.value_demands.specs.Valued.{HasValuesByNames};
ghost use Rattle.data_demands.specs.Measured.{HaveOneLayout};

use data_demands::field_has_values;
use demand_search::Demand;
use image_streams::Image;
use member_demands::{
    event_has_values, override_has_values, param_has_values, property_has_values, type_has_values,
};
use signature_facts::Owners;
use std::marker::Model;
use type_names::TypeNames;
use value_demands::{UsedRows, instance_has_values, method_has_values};

/// Values are right (I16): constants, generic parameters, layouts, offsets, data, params, accessors' kinds, overrides and arguments.
#[derive(Drop)]
pub struct Values<'i, 'n, 'a, O: Owners, U: UsedRows> {
    image: &'i Image<'a>,
    names: &'n TypeNames<'n, 'a>,
    facts: &'i O,
    used: &'i U,
}

impl<'i, 'n, 'a, O: Owners, U: UsedRows> Model for Values<'i, 'n, 'a, O, U> {
    ghost use Rattle.std.specs.Prelude.{◌≡◌, ℕ, List};
    ghost use Rattle.image_model.specs.Members.{AreDistinct};
    ghost use Rattle.attribute_demands.specs.Judging.{CanJudge, ByNames};

    ghost Value = { List ℕ };

    ghost view = { λ it. it.image.now };

    ghost invariant = { λ it. (it.names.now.image ≡ it.image.now) × CanJudge it.image.now (O.facts it.facts.now) × (U.image it.used.now ≡ it.image.now) × ((table row : ℕ) → ByNames it.image.now (λ map. AreDistinct it.image.now map table row)) };
}

impl<'i, 'n, 'a, O: Owners, U: UsedRows> Values<'i, 'n, 'a, O, U> {
    /// The demand on an image that meets I1 to I15, by the numbers of its types, facts of what its tokens name and the rows that are used.
    pub fn new(
        image: &'i Image<'a>,
        names: &'n TypeNames<'n, 'a>,
        facts: &'i O,
        used: &'i U,
    ) -> Values<'i, 'n, 'a, O, U>
        requires names { names.now.image ≡ image.now }
        requires can { CanJudge image.now (O.facts facts.now) }
        requires used { U.image used.now ≡ image.now }
        requires distinct { (table row : ℕ) → ByNames image.now (λ map. AreDistinct image.now map table row) }
        ensures { result ≡ image.now }
    {
        Values {
            image,
            names,
            facts,
            used,
        }
    }
}

impl<'i, 'n, 'a, O: Owners, U: UsedRows> Demand for Values<'i, 'n, 'a, O, U> {
    ghost use Rattle.image_model.specs.Rows.{count_of};
    ghost use Rattle.value_demands.specs.Valued.{HasValuesByNames};

    ghost meets = { λ it table row. HasValuesByNames it table row };

    ghost rows = { λ it table. count_of it table };

    fn asks(&self, table: u8) -> bool {
        matches!(table, 0x02 | 0x04 | 0x06 | 0x08 | 0x14 | 0x17 | 0x19 | 0x2B)
    }

    fn count(&self, table: u8) -> u32 {
        self.image.tables().rows(table)
    }

    fn row_meets(&self, table: u8, row: u32) -> bool {
        if row == 0 {
            return true;
        }
        match table {
            0x02 => type_has_values(self.image, row),
            0x04 => field_has_values(self.image, self.names, row),
            0x06 => method_has_values(self.image, self.facts, row),
            0x08 => param_has_values(self.image, row),
            0x14 => event_has_values(self.image, row),
            0x17 => property_has_values(self.image, row),
            0x19 => override_has_values(self.image, row),
            0x2B => instance_has_values(self.image, self.facts, self.used, row),
            _ => true,
        }
    }

    fn others_meet(&self) {
        rows_stand_in_tables(self.image);
    }
}

/// A law: rows stand in the tables of the profile alone, and there up to their number.
fn rows_stand_in_tables(image: &Image<'_>)
    ensures { (table row : ℕ) → (45 ≤ table) ⊎ (count_of image.now table < row) → HasRow image.now table row → ⊥ }
{
    let _tables = image.tables();
}

ghost use Rattle.std.specs.Prelude.{◌≡◌, ◌≤◌, ◌<◌, ◌↔◌, ◌⊎◌, ℕ, IsTrue, false};
ghost use Rattle.image_model.specs.Rows.{count_of, HasRow};
ghost use Rattle.metadata_tables.specs.Faults.{IsEarlier};
ghost use Rattle.attribute_demands.specs.Judging.{CanJudge, HasAttributeByNames};

use crate::constructors::has_constructor;
use demand_search::Demand;
use image_streams::Image;
use member_demands::has_attributed_parent;
use signature_facts::Owners;
use std::marker::Model;

/// Attributes are right (I21): each belongs to what may have attributes, and its type is a method (II.22.10).
#[derive(Drop)]
pub struct Attributes<'i, 'a, O: Owners> {
    image: &'i Image<'a>,
    facts: &'i O,
}

impl<'i, 'a, O: Owners> Model for Attributes<'i, 'a, O> {
    ghost use Rattle.std.specs.Prelude.{ℕ, List};
    ghost use Rattle.attribute_demands.specs.Judging.{CanJudge};

    ghost Value = { List ℕ };

    ghost view = { λ it. it.image.now };

    ghost invariant = { λ it. CanJudge it.image.now (O.facts it.facts.now) };
}

impl<'i, 'a, O: Owners> Attributes<'i, 'a, O> {
    /// The demand on an image that meets I1 to I14, by facts of what its tokens name.
    pub fn new(image: &'i Image<'a>, facts: &'i O) -> Attributes<'i, 'a, O>
        requires { CanJudge image.now (O.facts facts.now) }
        ensures { result ≡ image.now }
    {
        Attributes { image, facts }
    }
}

impl<'i, 'a, O: Owners> Demand for Attributes<'i, 'a, O> {
    ghost use Rattle.image_model.specs.Rows.{count_of};
    ghost use Rattle.attribute_demands.specs.Judging.{HasAttributeByNames};

    ghost meets = { λ it table row. HasAttributeByNames it table row };

    ghost rows = { λ it table. count_of it table };

    fn asks(&self, table: u8) -> bool {
        table == 0x0C
    }

    fn count(&self, table: u8) -> u32 {
        self.image.tables().rows(table)
    }

    fn row_meets(&self, table: u8, row: u32) -> bool {
        table != 0x0C || row == 0 || is_attribute(self.image, self.facts, row)
    }

    fn others_meet(&self) {
        rows_stand_in_tables(self.image);
    }
}

/// Whether an attribute belongs to what may have attributes, and its type is a method.
fn is_attribute<O: Owners>(image: &Image<'_>, facts: &O, row: u32) -> bool
    requires there { HasRow image.now 0x0C row }
    requires can { CanJudge image.now (O.facts facts.now) }
    ensures { IsTrue result ↔ HasAttributeByNames image.now 0x0C row }
{
    if !has_attributed_parent(image, row) {
        return false;
    }
    has_constructor(image, facts, row)
}

/// A law: rows stand in the tables of the profile alone, and there up to their number.
fn rows_stand_in_tables(image: &Image<'_>)
    ensures { (table row : ℕ) → (45 ≤ table) ⊎ (count_of image.now table < row) → HasRow image.now table row → ⊥ }
{
    let _tables = image.tables();
}

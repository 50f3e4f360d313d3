ghost use Rattle.std.specs.Prelude.{◌≡◌, ◌≤◌, ◌<◌, ◌↔◌, ◌⊎◌, ℕ, IsTrue, false};
ghost use Rattle.heaps.specs.Content.{HasText};
ghost use Rattle.image_model.specs.Members.{HasBase, IsInterface, MayLackBase, object_id};
ghost use Rattle.image_model.specs.Naming.{HasId};
ghost use Rattle.image_model.specs.Rows.{count_of, HasRow};
ghost use Rattle.metadata_tables.specs.Faults.{IsEarlier};

use crate::standing::rows_stand_in_tables;
use demand_search::Demand;
use heaps::{one_content_at_an_index, string_at};
use image_streams::Image;
use row_groups::Outers;
use std::marker::Model;

/// Bases are right (I22): an interface has none, and every other type has one, but for `<Module>` and the top-level type
/// System.Object (II.22.37).
#[derive(Drop)]
pub struct Bases<'i, 'o, 'a> {
    image: &'i Image<'a>,
    outers: &'o Outers<'o, 'a>,
}

impl<'i, 'o, 'a> Model for Bases<'i, 'o, 'a> {
    ghost use Rattle.std.specs.Prelude.{◌≡◌, ℕ, List};

    ghost Value = { List ℕ };

    ghost view = { λ it. it.image.now };

    ghost invariant = { λ it. it.outers.now ≡ it.image.now };
}

impl<'i, 'o, 'a> Bases<'i, 'o, 'a> {
    /// The demand on an image, by the types that enclose its types.
    pub fn new(image: &'i Image<'a>, outers: &'o Outers<'o, 'a>) -> Bases<'i, 'o, 'a>
        requires { outers.now ≡ image.now }
        ensures { result ≡ image.now }
    {
        Bases { image, outers }
    }
}

impl<'i, 'o, 'a> Demand for Bases<'i, 'o, 'a> {
    ghost use Rattle.image_model.specs.Rows.{count_of};
    ghost use Rattle.image_model.specs.Members.{HasBase};

    ghost meets = { λ it table row. HasBase it table row };

    ghost rows = { λ it table. count_of it table };

    fn asks(&self, table: u8) -> bool {
        table == 0x02
    }

    fn count(&self, table: u8) -> u32 {
        self.image.tables().rows(table)
    }

    fn row_meets(&self, table: u8, row: u32) -> bool {
        table != 0x02 || row == 0 || has_base(self.image, self.outers, row)
    }

    fn others_meet(&self) {
        rows_stand_in_tables(self.image);
    }
}

/// The flag of an interface (II.23.1.15).
const INTERFACE: u32 = 0x20;

/// Whether a type has a base exactly where it should.
#[tactic(auto, unfolding(metadata_tables::specs::Schema::schema))]
fn has_base(image: &Image<'_>, outers: &Outers<'_, '_>, row: u32) -> bool
    requires same { outers.now ≡ image.now }
    requires there { HasRow image.now 0x02 row }
    ensures { IsTrue result ↔ HasBase image.now 0x02 row }
{
    let extends = image.tables().cell(0x02, row, 3);
    if is_interface(image, row) {
        return extends == 0;
    }
    extends != 0 || may_lack_base(image, outers, row)
}

/// Whether a type is an interface.
#[tactic(auto, unfolding(metadata_tables::specs::Schema::schema))]
fn is_interface(image: &Image<'_>, row: u32) -> bool
    requires { HasRow image.now 0x02 row }
    ensures { IsTrue result ↔ IsInterface image.now row }
{
    image.tables().cell(0x02, row, 0) / INTERFACE % 2 == 1
}

/// Whether a type is `<Module>`, or System.Object at the top.
fn may_lack_base(image: &Image<'_>, outers: &Outers<'_, '_>, row: u32) -> bool
    requires same { outers.now ≡ image.now }
    requires there { HasRow image.now 0x02 row }
    ensures { IsTrue result ↔ MayLackBase image.now row }
{
    row == 1 || (outers.of(row) == 0 && is_object(image, row))
}

/// Whether a type has the name and the space of System.Object.
#[tactic(auto, unfolding(metadata_tables::specs::Schema::schema))]
fn is_object(image: &Image<'_>, row: u32) -> bool
    requires { HasRow image.now 0x02 row }
    ensures { IsTrue result ↔ HasId image.now row object_id }
{
    let tables = image.tables();
    if !has_text(image.strings(), tables.cell(0x02, row, 1), "Object") {
        return false;
    }
    has_text(image.strings(), tables.cell(0x02, row, 2), "System")
}

/// Whether this text stands at an index of `#Strings`.
fn has_text(heap: &[u8], at: u32, text: &str) -> bool
    ensures { IsTrue result ↔ HasText heap.now at text.now }
{
    one_content_at_an_index();
    match string_at(heap, at) {
        Some(found) => found == text,
        None => false,
    }
}

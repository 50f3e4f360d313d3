ghost use Rattle.std.specs.Prelude.{◌≡◌, ◌≤◌, ◌<◌, ◌↔◌, ◌⊎◌, ◌+◌, ◌^◌, ℕ, IsTrue, Contains, false};
ghost use Rattle.image_model.specs.Members.{HasOwnAccessors};
ghost use Rattle.image_model.specs.Rows.{count_of, HasRow, methods_of, events_of, properties_of};
ghost use Rattle.metadata_tables.specs.Faults.{IsEarlier};
ghost use Rattle.row_demands.specs.Structured.{MeetStructure};
ghost use Rattle.member_demands.specs.Semantics.{AreAccessors, IsOwnedBy, AreMethodsOf};

use crate::standing::rows_stand_in_tables;
use demand_search::Demand;
use image_streams::Image;
use row_groups::{Owners, Rows, has_member, owned_rows, owner_of};
use std::marker::Model;

/// Accessors are right (I23): each belongs to the type that has its property or event (II.22.28).
#[derive(Drop)]
pub struct Accessors<'i, 'a> {
    image: &'i Image<'a>,
}

impl<'i, 'a> Model for Accessors<'i, 'a> {
    ghost use Rattle.std.specs.Prelude.{ℕ, List};
    ghost use Rattle.row_demands.specs.Structured.{MeetStructure};

    ghost Value = { List ℕ };

    ghost view = { λ it. it.image.now };

    ghost invariant = { λ it. MeetStructure it.image.now };
}

impl<'i, 'a> Accessors<'i, 'a> {
    /// The demand on an image that meets I8 to I12.
    pub fn new(image: &'i Image<'a>) -> Accessors<'i, 'a>
        requires { MeetStructure image.now }
        ensures { result ≡ image.now }
    {
        Accessors { image }
    }
}

impl<'i, 'a> Demand for Accessors<'i, 'a> {
    ghost use Rattle.image_model.specs.Rows.{count_of};
    ghost use Rattle.image_model.specs.Members.{HasOwnAccessors};

    ghost meets = { λ it table row. HasOwnAccessors it table row };

    ghost rows = { λ it table. count_of it table };

    fn asks(&self, table: u8) -> bool {
        table == 0x14 || table == 0x17
    }

    fn count(&self, table: u8) -> u32 {
        self.image.tables().rows(table)
    }

    fn row_meets(&self, table: u8, row: u32) -> bool {
        if row == 0 {
            return true;
        }
        match table {
            0x14 => event_meets(self.image, row),
            0x17 => property_meets(self.image, row),
            _ => true,
        }
    }

    fn others_meet(&self) {
        rows_stand_in_tables(self.image);
    }
}

/// The runs of events and properties, by the rows of their maps, and of methods, by their types.
const EVENTS: Owners = Owners {
    table: 0x12,
    column: 1,
    members: 0x14,
};

const PROPERTIES: Owners = Owners {
    table: 0x15,
    column: 1,
    members: 0x17,
};

const METHODS: Owners = Owners {
    table: 0x02,
    column: 5,
    members: 0x06,
};

/// Whether the accessors of an event are methods of its type.
fn event_meets(image: &Image<'_>, row: u32) -> bool
    requires there { HasRow image.now 0x14 row }
    requires meets { MeetStructure image.now }
    ensures { IsTrue result ↔ HasOwnAccessors image.now 0x14 row }
{
    let accessors = accessors_of(image, u64::from(row) * 2);
    if accessors.count == 0 {
        return true;
    }
    let type_row = event_type(image, row);
    are_methods_of(image, accessors, type_row)
}

/// Whether the accessors of a property are methods of its type.
fn property_meets(image: &Image<'_>, row: u32) -> bool
    requires there { HasRow image.now 0x17 row }
    requires meets { MeetStructure image.now }
    ensures { IsTrue result ↔ HasOwnAccessors image.now 0x17 row }
{
    let accessors = accessors_of(image, u64::from(row) * 2 + 1);
    if accessors.count == 0 {
        return true;
    }
    let type_row = property_type(image, row);
    are_methods_of(image, accessors, type_row)
}

/// The rows of MethodSemantics that name an event or a property, by the coded index of this.
#[tactic(auto, unfolding(metadata_tables::specs::Schema::schema))]
pub(crate) fn accessors_of(image: &Image<'_>, index: u64) -> Rows
    requires small { index < 2 ^ 34 }
    requires meets { MeetStructure image.now }
    ensures { AreAccessors image.now index result.first result.count }
{
    owned_rows(image, 0x18, 2, index)
}

/// The type that has an event, by the row of EventMap in whose run it lies.
#[tactic(auto, unfolding(metadata_tables::specs::Schema::schema))]
pub fn event_type(image: &Image<'_>, row: u32) -> u32
    requires there { HasRow image.now 0x14 row }
    requires meets { MeetStructure image.now }
    ensures { IsOwnedBy image.now (events_of image.now) row result }
{
    let map = owner_of(image, EVENTS, row);
    image.tables().cell(0x12, map, 0)
}

/// The type that has a property, by the row of PropertyMap in whose run it lies.
#[tactic(auto, unfolding(metadata_tables::specs::Schema::schema))]
pub fn property_type(image: &Image<'_>, row: u32) -> u32
    requires there { HasRow image.now 0x17 row }
    requires meets { MeetStructure image.now }
    ensures { IsOwnedBy image.now (properties_of image.now) row result }
{
    let map = owner_of(image, PROPERTIES, row);
    image.tables().cell(0x15, map, 0)
}

/// Whether the methods of some rows of MethodSemantics are those of a type.
#[tactic(auto, unfolding(metadata_tables::specs::Schema::schema))]
fn are_methods_of(image: &Image<'_>, rows: Rows, type_row: u32) -> bool
    requires there { HasRow image.now 0x02 type_row }
    requires some { 0 < rows.first }
    requires within { rows.first + rows.count ≤ count_of image.now 0x18 + 1 }
    requires few { rows.first + rows.count ≤ 2 ^ 32 }
    ensures { IsTrue result ↔ AreMethodsOf image.now rows.first rows.count type_row }
{
    let tables = image.tables();
    for k in 0..rows.count {
        let method = tables.cell(0x18, (rows.first + k) as u32, 1);
        if !is_method_of(image, type_row, method) {
            return false;
        }
    }
    true
}

/// Whether a method is one of a type.
#[tactic(auto, unfolding(metadata_tables::specs::Schema::schema))]
pub(crate) fn is_method_of(image: &Image<'_>, type_row: u32, method: u32) -> bool
    requires { HasRow image.now 0x02 type_row }
    ensures { IsTrue result ↔ Contains (methods_of image.now type_row) method }
{
    has_member(image, METHODS, type_row, method)
}

ghost use Rattle.std.specs.Prelude.{◌≡◌, ◌≤◌, ◌<◌, ◌↔◌, ◌⊎◌, ◌-◌, ℕ, IsTrue, IfOk, false, length};
ghost use Rattle.metadata_tables.specs.Faults.{IsEarlier};
ghost use Rattle.image_model.specs.Cells.{HasIndexes};
ghost use Rattle.image_model.specs.Columns.{param_sequence, event_map_parent, property_map_parent};
ghost use Rattle.image_model.specs.Rows.{count_of, HasRow};
ghost use Rattle.image_model.specs.Structure.{HasRuns, IsFirstWith, RisesInMethod, Rises, LiesIn};
ghost use Rattle.row_demands.specs.Members.{run_begin, run_of, AreBegins, AreFirsts};
ghost use Rattle.metadata_tables.specs.Schema.{columns_of};
ghost use Rattle.metadata_tables.specs.Stream.{cell};
ghost use Rattle.image_model.specs.Streams.{tables_of};

use crate::owners::Owners;
use image_streams::Image;

/// The runs of the standard: fields and methods of types, params of methods, events and properties of the rows of their maps.
const FIELDS: Owners = Owners {
    table: 0x02,
    column: 4,
    members: 0x04,
};

const METHODS: Owners = Owners {
    table: 0x02,
    column: 5,
    members: 0x06,
};

pub(crate) const PARAMS: Owners = Owners {
    table: 0x06,
    column: 5,
    members: 0x08,
};

const EVENTS: Owners = Owners {
    table: 0x12,
    column: 1,
    members: 0x14,
};

const PROPERTIES: Owners = Owners {
    table: 0x15,
    column: 1,
    members: 0x17,
};

#[tactic(auto, unfolding(metadata_tables::specs::Schema::schema))]
/// Whether the runs of a type rise (II.22.37).
pub(crate) fn type_meets(image: &Image<'_>, row: u32) -> bool
    requires { HasRow image.now 0x02 row }
    ensures { IsTrue result ↔ HasRuns image.now 0x02 row }
{
    FIELDS.rises(image, row) && METHODS.rises(image, row)
}

#[tactic(auto, unfolding(metadata_tables::specs::Schema::schema))]
/// Whether a field lies in the run of a type.
pub(crate) fn field_meets(image: &Image<'_>, row: u32) -> bool
    requires there { HasRow image.now 0x04 row }
    requires rise { (type : ℕ) → HasRow image.now 0x02 type → HasRuns image.now 0x02 type }
    ensures { IsTrue result ↔ HasRuns image.now 0x04 row }
{
    FIELDS.hold(image, row)
}

#[tactic(auto, unfolding(metadata_tables::specs::Schema::schema))]
/// Whether a method lies in the run of a type, and its own run rises (II.22.26).
pub(crate) fn method_meets(image: &Image<'_>, row: u32) -> bool
    requires there { HasRow image.now 0x06 row }
    requires rise { (type : ℕ) → HasRow image.now 0x02 type → HasRuns image.now 0x02 type }
    ensures { IsTrue result ↔ HasRuns image.now 0x06 row }
{
    PARAMS.rises(image, row) && METHODS.hold(image, row)
}

#[tactic(auto, unfolding(metadata_tables::specs::Schema::schema))]
/// Whether a param lies in the run of a method, and its sequence is above that of the one before it there (II.22.33).
pub(crate) fn param_meets(image: &Image<'_>, begins: &[bool], row: u32) -> bool
    requires there { HasRow image.now 0x08 row }
    requires rise { (method : ℕ) → HasRow image.now 0x06 method → HasRuns image.now 0x06 method }
    requires begins { AreBegins image.now 0x06 5 0x08 begins.now }
    requires positive { (method : ℕ) → HasRow image.now 0x06 method → 0 < run_begin image.now 0x06 5 0x08 method }
    requires before { 1 < row → HasRuns image.now 0x08 (row - 1) }
    ensures { IsTrue result ↔ HasRuns image.now 0x08 row }
{
    PARAMS.hold(image, row) && rises_in_method(image, begins, row)
}

#[tactic(auto, unfolding(metadata_tables::specs::Schema::schema))]
/// Whether the sequence of a param is above that of the one before it, where one method has both.
fn rises_in_method(image: &Image<'_>, begins: &[bool], row: u32) -> bool
    requires there { HasRow image.now 0x08 row }
    requires rise { (method : ℕ) → HasRow image.now 0x06 method → HasRuns image.now 0x06 method }
    requires begins { AreBegins image.now 0x06 5 0x08 begins.now }
    requires positive { (method : ℕ) → HasRow image.now 0x06 method → 0 < run_begin image.now 0x06 5 0x08 method }
    requires before { 1 < row → HasRuns image.now 0x08 (row - 1) }
    ensures { IsTrue result ↔ RisesInMethod image.now row }
{
    if row <= 1 {
        return true;
    }
    if begins[row as usize] {
        return true;
    }
    let tables = image.tables();
    tables.cell(0x08, row - 1, 1) < tables.cell(0x08, row, 1)
}

#[tactic(auto, unfolding(metadata_tables::specs::Schema::schema))]
/// Whether the runs of EventMap rise, and a row is the first of its type (II.22.12).
pub(crate) fn event_map_meets(image: &Image<'_>, firsts: &[u32], row: u32) -> bool
    requires firsts { AreFirsts image.now 0x12 (count_of image.now 0x02) firsts.now }
    requires there { HasRow image.now 0x12 row }
    ensures { IsTrue result ↔ HasRuns image.now 0x12 row }
{
    EVENTS.rises(image, row) && is_first(image, 0x12, firsts, row)
}

#[tactic(auto, unfolding(metadata_tables::specs::Schema::schema))]
/// Whether an event lies in the run of a row of EventMap.
pub(crate) fn event_meets(image: &Image<'_>, row: u32) -> bool
    requires there { HasRow image.now 0x14 row }
    requires rise { (map : ℕ) → HasRow image.now 0x12 map → HasRuns image.now 0x12 map }
    ensures { IsTrue result ↔ HasRuns image.now 0x14 row }
{
    EVENTS.hold(image, row)
}

#[tactic(auto, unfolding(metadata_tables::specs::Schema::schema))]
/// Whether the runs of PropertyMap rise, and a row is the first of its type (II.22.35).
pub(crate) fn property_map_meets(image: &Image<'_>, firsts: &[u32], row: u32) -> bool
    requires firsts { AreFirsts image.now 0x15 (count_of image.now 0x02) firsts.now }
    requires there { HasRow image.now 0x15 row }
    ensures { IsTrue result ↔ HasRuns image.now 0x15 row }
{
    PROPERTIES.rises(image, row) && is_first(image, 0x15, firsts, row)
}

#[tactic(auto, unfolding(metadata_tables::specs::Schema::schema))]
/// Whether a property lies in the run of a row of PropertyMap.
pub(crate) fn property_meets(image: &Image<'_>, row: u32) -> bool
    requires there { HasRow image.now 0x17 row }
    requires rise { (map : ℕ) → HasRow image.now 0x15 map → HasRuns image.now 0x15 map }
    ensures { IsTrue result ↔ HasRuns image.now 0x17 row }
{
    PROPERTIES.hold(image, row)
}

/// Whether a row of a map is the first with its parent.
fn is_first(image: &Image<'_>, map: u8, firsts: &[u32], row: u32) -> bool
    requires there { HasRow image.now map row }
    requires column { 0 < length (columns_of map) }
    requires firsts { AreFirsts image.now map (count_of image.now 0x02) firsts.now }
    ensures { IsTrue result ↔ IsFirstWith (λ row. cell (tables_of image.now) map row 0) row }
{
    let parent = image.tables().cell(map, row, 0) as usize;
    firsts.get(parent).copied().unwrap_or(0) == row
}

ghost use Rattle.std.specs.Prelude.{◌≡◌, ◌≤◌, ◌<◌, ◌+◌, ◌^◌, ◌↔◌, ℕ, IsTrue, Contains};
ghost use Rattle.image_model.specs.Columns.{semantics_kind};
ghost use Rattle.image_model.specs.Members.{HasKinds, event_kinds, property_kinds, OverridesInClass};
ghost use Rattle.image_model.specs.Rows.{count_of, HasRow};
ghost use Rattle.row_demands.specs.Structured.{MeetStructure};

use crate::accessors::{accessors_of, is_method_of};
use image_streams::Image;
use metadata_tables::{Coded, unpack_coded};
use row_groups::Rows;

/// Whether the accessors of an event are of the kinds that events have (II.23.1.12): other, addon, removeon, fire.
pub fn event_has_kinds(image: &Image<'_>, row: u32) -> bool
    requires there { HasRow image.now 0x14 row }
    requires meets { MeetStructure image.now }
    ensures { IsTrue result ↔ HasKinds image.now event_kinds 0x14 row }
{
    have_kinds(
        image,
        accessors_of(image, u64::from(row) * 2),
        &[4, 8, 16, 32],
    )
}

/// Whether the accessors of a property are of the kinds that properties have (II.23.1.12): setter, getter, other.
pub fn property_has_kinds(image: &Image<'_>, row: u32) -> bool
    requires there { HasRow image.now 0x17 row }
    requires meets { MeetStructure image.now }
    ensures { IsTrue result ↔ HasKinds image.now property_kinds 0x17 row }
{
    have_kinds(
        image,
        accessors_of(image, u64::from(row) * 2 + 1),
        &[1, 2, 4],
    )
}

/// Whether rows of MethodSemantics that stand side by side are of some kinds.
#[tactic(auto, unfolding(metadata_tables::specs::Schema::schema))]
fn have_kinds(image: &Image<'_>, rows: Rows, kinds: &[u32]) -> bool
    requires some { 0 < rows.first }
    requires within { rows.first + rows.count ≤ count_of image.now 0x18 + 1 }
    requires few { rows.first + rows.count ≤ 2 ^ 32 }
    ensures { IsTrue result ↔ ((k : ℕ) → k < rows.count → Contains kinds.now (semantics_kind image.now (rows.first + k))) }
{
    let tables = image.tables();
    for k in 0..rows.count {
        let kind = tables.cell(0x18, (rows.first + k) as u32, 0);
        if !is_among(kinds, kind) {
            return false;
        }
    }
    true
}

/// Whether a number is among some.
pub(crate) fn is_among(numbers: &[u32], number: u32) -> bool
    ensures { IsTrue result ↔ Contains numbers.now number }
{
    numbers.contains(&number)
}

/// Whether the body of a row of MethodImpl is a method of its class (II.22.27).
#[tactic(auto, unfolding(metadata_tables::specs::Schema::schema))]
pub fn overrides_in_class(image: &Image<'_>, row: u32) -> bool
    requires there { HasRow image.now 0x19 row }
    requires meets { MeetStructure image.now }
    ensures { IsTrue result ↔ OverridesInClass image.now row }
{
    let tables = image.tables();
    match unpack_coded(Coded::MethodDefOrRef, tables.cell(0x19, row, 1)) {
        Some((0x06, method)) => is_method_of(image, tables.cell(0x19, row, 0), method),
        _ => false,
    }
}

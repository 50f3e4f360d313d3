ghost use Rattle.std.specs.Prelude.{◌≡◌, ◌≤◌, ◌<◌, ◌+◌, ◌↔◌, ◌^◌, ℕ, IsTrue};
ghost use Rattle.image_model.specs.Members.{HasGenerics};
ghost use Rattle.image_model.specs.Rows.{count_of, HasRow};
ghost use Rattle.row_demands.specs.Structured.{MeetStructure};
ghost use Rattle.member_demands.specs.Groups.{StandTogether, AreNumbered};

use image_streams::Image;
use row_groups::{Rows, owned_rows};

/// How many generic parameters a type or a method may have.
const MAX_GENERICS: u64 = 65_535;

/// Whether the generic parameters of a type are numbered 0, 1 and on, and aren't too many (II.22.20).
pub fn type_has_generics(image: &Image<'_>, row: u32) -> bool
    requires there { HasRow image.now 0x02 row }
    requires meets { MeetStructure image.now }
    ensures { IsTrue result ↔ HasGenerics image.now 0x02 row }
{
    are_generics(image, generics_of(image, u64::from(row) * 2))
}

/// Whether the generic parameters of a method are numbered 0, 1 and on, and aren't too many.
pub fn method_has_generics(image: &Image<'_>, row: u32) -> bool
    requires there { HasRow image.now 0x06 row }
    requires meets { MeetStructure image.now }
    ensures { IsTrue result ↔ HasGenerics image.now 0x06 row }
{
    are_generics(image, generics_of(image, u64::from(row) * 2 + 1))
}

/// The generic parameters of an owner, by its coded index.
#[tactic(auto, unfolding(metadata_tables::specs::Schema::schema))]
fn generics_of(image: &Image<'_>, index: u64) -> Rows
    requires small { index < 2 ^ 34 }
    requires meets { MeetStructure image.now }
    ensures { StandTogether image.now 0x2A 2 index result.first result.count }
{
    owned_rows(image, 0x2A, 2, index)
}

/// Whether rows of GenericParam that stand side by side are numbered from 0, and aren't too many.
fn are_generics(image: &Image<'_>, rows: Rows) -> bool
    requires some { 0 < rows.first }
    requires within { rows.first + rows.count ≤ count_of image.now 0x2A + 1 }
    requires few { rows.first + rows.count ≤ 2 ^ 32 }
    ensures { IsTrue result ↔ ((rows.count ≤ 65535) × AreNumbered image.now rows.first rows.count) }
{
    rows.count <= MAX_GENERICS && are_numbered(image, rows)
}

/// Whether rows of GenericParam that stand side by side are numbered from 0.
#[tactic(auto, unfolding(metadata_tables::specs::Schema::schema))]
fn are_numbered(image: &Image<'_>, rows: Rows) -> bool
    requires some { 0 < rows.first }
    requires within { rows.first + rows.count ≤ count_of image.now 0x2A + 1 }
    requires few { rows.first + rows.count ≤ 2 ^ 32 }
    ensures { IsTrue result ↔ AreNumbered image.now rows.first rows.count }
{
    let tables = image.tables();
    for k in 0..rows.count {
        if u64::from(tables.cell(0x2A, (rows.first + k) as u32, 0)) != k {
            return false;
        }
    }
    true
}

ghost use Rattle.std.specs.Prelude.{◌≡◌, ◌≤◌, ◌<◌, ◌+◌, ◌^◌, ◌↔◌, ℕ, Some, IsTrue};
ghost use Rattle.assembly_tree.specs.declared.members.Constant.{Constant};
ghost use Rattle.image_model.specs.Constants.{constant_of};
ghost use Rattle.image_model.specs.Members.{HasConstants, ConstantIs};
ghost use Rattle.image_model.specs.Rows.{count_of, HasRow};
ghost use Rattle.row_demands.specs.Structured.{MeetStructure};
ghost use Rattle.member_demands.specs.Groups.{StandTogether, AreConstants, width_of};

use heaps::{blob_at, one_content_at_an_index};
use image_streams::Image;
use row_groups::{Rows, owned_rows};

/// Whether a field has at most one constant, and it is one (II.22.9).
pub fn field_has_constants(image: &Image<'_>, row: u32) -> bool
    requires there { HasRow image.now 0x04 row }
    requires meets { MeetStructure image.now }
    ensures { IsTrue result ↔ HasConstants image.now 0x04 row }
{
    are_constants(image, constants_of(image, u64::from(row) * 4))
}

/// Whether a param has at most one constant, and it is one.
pub fn param_has_constants(image: &Image<'_>, row: u32) -> bool
    requires there { HasRow image.now 0x08 row }
    requires meets { MeetStructure image.now }
    ensures { IsTrue result ↔ HasConstants image.now 0x08 row }
{
    are_constants(image, constants_of(image, u64::from(row) * 4 + 1))
}

/// Whether a property has at most one constant, and it is one.
pub fn property_has_constants(image: &Image<'_>, row: u32) -> bool
    requires there { HasRow image.now 0x17 row }
    requires meets { MeetStructure image.now }
    ensures { IsTrue result ↔ HasConstants image.now 0x17 row }
{
    are_constants(image, constants_of(image, u64::from(row) * 4 + 2))
}

/// The constants of an owner, by its coded index.
#[tactic(auto, unfolding(metadata_tables::specs::Schema::schema))]
fn constants_of(image: &Image<'_>, index: u64) -> Rows
    requires small { index < 2 ^ 35 }
    requires meets { MeetStructure image.now }
    ensures { StandTogether image.now 0x0B 2 index result.first result.count }
{
    owned_rows(image, 0x0B, 2, index)
}

/// Whether rows of Constant that stand side by side are at most one, which is a constant.
fn are_constants(image: &Image<'_>, rows: Rows) -> bool
    requires some { 0 < rows.first }
    requires within { rows.first + rows.count ≤ count_of image.now 0x0B + 1 }
    requires few { rows.first + rows.count ≤ 2 ^ 32 }
    ensures { IsTrue result ↔ AreConstants image.now rows.first rows.count }
{
    if rows.count != 1 {
        return rows.count == 0;
    }
    is_constant_row(image, rows.first as u32)
}

/// Whether a row of Constant is a constant.
#[tactic(auto, unfolding(metadata_tables::specs::Schema::schema))]
fn is_constant_row(image: &Image<'_>, row: u32) -> bool
    requires { HasRow image.now 0x0B row }
    ensures { IsTrue result ↔ ((c : Constant) × ConstantIs image.now row c) }
{
    one_content_at_an_index();
    let tables = image.tables();
    match blob_at(image.blobs(), tables.cell(0x0B, row, 3)) {
        Some(value) => is_constant(tables.cell(0x0B, row, 0), value),
        None => false,
    }
}

/// Whether an element type and a value make a constant (II.22.9): the value has the type's width, or is whole UTF-16 units.
fn is_constant(element: u32, value: &[u8]) -> bool
    ensures { IsTrue result ↔ ((c : Constant) × (constant_of element value.now ≡ Some c)) }
{
    if element == 0x0E {
        return value.len() % 2 == 0;
    }
    let width = width_of(element);
    width > 0 && value.len() == width
}

/// How many bytes a value of each element type has (II.23.1.16), up to that of null; 0 where it has none of one width.
const WIDTHS: [u8; 19] = [0, 0, 1, 2, 1, 1, 2, 2, 4, 4, 8, 8, 4, 8, 0, 0, 0, 0, 4];

/// How many bytes a value of an element type has, or 0.
fn width_of(element: u32) -> usize
    ensures { result ≡ width_of element }
{
    match WIDTHS.get(element as usize) {
        Some(width) => usize::from(*width),
        None => 0,
    }
}

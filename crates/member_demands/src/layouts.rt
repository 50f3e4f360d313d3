ghost use Rattle.std.specs.Prelude.{◌≡◌, ◌≤◌, ◌<◌, ◌↔◌, IsTrue, Contains, length};
ghost use Rattle.image_model.specs.Members.{HasLayout, packings, offsets_of, data_of};
ghost use Rattle.image_model.specs.Rows.{HasRow};
ghost use Rattle.row_demands.specs.Structured.{MeetStructure};
ghost use Rattle.member_demands.specs.Groups.{StandTogether};

use crate::kinds::is_among;
use image_streams::Image;
use row_groups::{Rows, owned_rows};

/// Whether a type has at most one layout, with a packing size that there is, and none if it is `<Module>` (II.22.8).
#[tactic(auto, unfolding(metadata_tables::specs::Schema::schema))]
pub fn has_layout(image: &Image<'_>, row: u32) -> bool
    requires there { HasRow image.now 0x02 row }
    requires meets { MeetStructure image.now }
    ensures { IsTrue result ↔ HasLayout image.now row }
{
    let layouts = layouts_of(image, row);
    if layouts.count != 1 {
        return layouts.count == 0;
    }
    row != 1 && is_packing(image.tables().cell(0x0F, layouts.first as u32, 0))
}

/// The layouts of a type.
#[tactic(auto, unfolding(metadata_tables::specs::Schema::schema))]
fn layouts_of(image: &Image<'_>, row: u32) -> Rows
    requires meets { MeetStructure image.now }
    ensures { StandTogether image.now 0x0F 2 row result.first result.count }
{
    owned_rows(image, 0x0F, 2, u64::from(row))
}

/// The packing sizes of II.22.8.
const PACKINGS: [u32; 9] = [0, 1, 2, 4, 8, 16, 32, 64, 128];

/// Whether a packing size is one of these.
fn is_packing(size: u32) -> bool
    ensures { IsTrue result ↔ Contains packings size }
{
    is_among(&PACKINGS, size)
}

/// Whether a field has at most one offset (II.22.16).
#[tactic(auto, unfolding(metadata_tables::specs::Schema::schema))]
pub fn has_one_offset(image: &Image<'_>, row: u32) -> bool
    requires there { HasRow image.now 0x04 row }
    requires meets { MeetStructure image.now }
    ensures { IsTrue result ↔ (length (offsets_of image.now row) ≤ 1) }
{
    owned_rows(image, 0x10, 1, u64::from(row)).count <= 1
}

/// Whether a field has data at one place at most (II.22.18).
#[tactic(auto, unfolding(metadata_tables::specs::Schema::schema))]
pub fn has_one_data(image: &Image<'_>, row: u32) -> bool
    requires there { HasRow image.now 0x04 row }
    requires meets { MeetStructure image.now }
    ensures { IsTrue result ↔ (length (data_of image.now row) ≤ 1) }
{
    owned_rows(image, 0x1D, 1, u64::from(row)).count <= 1
}

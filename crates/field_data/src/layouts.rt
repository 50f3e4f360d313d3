ghost use Rattle.std.specs.Prelude.{◌≡◌, ◌≤◌, ◌<◌, ◌↔◌, ℕ, length};
ghost use Rattle.image_model.specs.Members.{layouts_of};
ghost use Rattle.row_demands.specs.Structured.{MeetStructure};
ghost use Rattle.member_demands.specs.Groups.{StandTogether};
ghost use Rattle.field_data.specs.Kinds.{HasClassSize};

use image_streams::Image;
use row_groups::{Rows, owned_rows};

/// The class size of the layout of a type that has one layout at most (II.22.8); 0 where it has none, or one without a size.
#[tactic(auto, unfolding(metadata_tables::specs::Schema::schema))]
pub fn class_size(image: &Image<'_>, row: u32) -> u32
    requires meets { MeetStructure image.now }
    requires one { length (layouts_of image.now row) ≤ 1 }
    ensures { (size : ℕ) → HasClassSize image.now row size ↔ ((size ≡ result) × (0 < size)) }
{
    let layouts = layouts_of(image, row);
    if layouts.count == 0 {
        return 0;
    }
    image.tables().cell(0x0F, layouts.first as u32, 1)
}

/// The layouts of a type.
#[tactic(auto, unfolding(metadata_tables::specs::Schema::schema))]
fn layouts_of(image: &Image<'_>, row: u32) -> Rows
    requires meets { MeetStructure image.now }
    ensures { StandTogether image.now 0x0F 2 row result.first result.count }
{
    owned_rows(image, 0x0F, 2, u64::from(row))
}

ghost use Rattle.std.specs.Prelude.{◌≡◌, ◌≤◌, length};
ghost use Rattle.image_model.specs.Columns.{offset_of_row};
ghost use Rattle.image_model.specs.Members.{offsets_of};
ghost use Rattle.image_model.specs.Reading.{IsGiven};
ghost use Rattle.row_demands.specs.Structured.{MeetStructure};

use image_streams::Image;
use row_groups::owned_rows;

/// The offset of a field, where it has one (II.22.16).
#[tactic(auto, unfolding(metadata_tables::specs::Schema::schema))]
pub(crate) fn offset(image: &Image<'_>, row: u32) -> Option<u32>
    requires meets { MeetStructure image.now }
    requires one { length (offsets_of image.now row) ≤ 1 }
    ensures { IsGiven (λ k offset. offset ≡ offset_of_row image.now k) (offsets_of image.now row) result }
{
    let rows = owned_rows(image, 0x10, 1, u64::from(row));
    if rows.count == 0 {
        return None;
    }
    Some(image.tables().cell(0x10, rows.first as u32, 0))
}

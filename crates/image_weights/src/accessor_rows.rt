ghost use Rattle.std.specs.Prelude.{◌≡◌, ◌<◌, ◌-◌, ◌^◌};
ghost use Rattle.image_weights.specs.RowWeights.{accessors};
ghost use Rattle.row_demands.specs.Structured.{MeetStructure};

use image_streams::Image;
use row_groups::owned_rows;

/// Takes off 64 for each accessor of a property or an event, by the coded index with which accessors name it (II.22.28).
#[tactic(auto, unfolding(metadata_tables::specs::Schema::schema))]
pub(crate) fn charge_accessors(image: &Image<'_>, index: u64, left: u64) -> u64
    requires small { index < 2 ^ 40 }
    requires meets { MeetStructure image.now }
    ensures { result ≡ left - accessors image.now index }
{
    let rows = owned_rows(image, 0x18, 2, index);
    left.saturating_sub(64 * rows.count)
}

ghost use Rattle.image_model.specs.Rows.{HasRow, fields_of, methods_of};
ghost use Rattle.row_demands.specs.Structured.{MeetStructure};
ghost use Rattle.row_weights.specs.Rows.{IsOwner};

use image_streams::Image;
use row_groups::{Owners, owner_of};

const FIELDS: Owners = Owners {
    table: 0x02,
    column: 4,
    members: 0x04,
};

const METHODS: Owners = Owners {
    table: 0x02,
    column: 5,
    members: 0x06,
};

/// The type that has a field.
#[tactic(auto, unfolding(metadata_tables::specs::Schema::schema))]
pub(crate) fn field_owner(image: &Image<'_>, row: u32) -> u32
    requires there { HasRow image.now 0x04 row }
    requires meets { MeetStructure image.now }
    ensures { IsOwner image.now (fields_of image.now) row result }
{
    owner_of(image, FIELDS, row)
}

/// The type that has a method.
#[tactic(auto, unfolding(metadata_tables::specs::Schema::schema))]
pub(crate) fn method_owner(image: &Image<'_>, row: u32) -> u32
    requires there { HasRow image.now 0x06 row }
    requires meets { MeetStructure image.now }
    ensures { IsOwner image.now (methods_of image.now) row result }
{
    owner_of(image, METHODS, row)
}

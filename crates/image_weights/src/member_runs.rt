ghost use Rattle.std.specs.Prelude.{◌≡◌, ◌-◌, sum_by};
ghost use Rattle.image_methods.specs.Overriders.{AreOverriders};
ghost use Rattle.image_model.specs.Rows.{count_of, HasRow, fields_of, methods_of, properties_of, events_of};
ghost use Rattle.image_weights.specs.RowWeights.{field_row, method_row, property_row, event_row};
ghost use Rattle.image_weights.specs.Standing.{Stands};
ghost use Rattle.row_demands.specs.Members.{AreFirsts};

use crate::WeightSource;
use crate::field_rows::charge_fields;
use crate::method_rows::charge_methods;
use crate::property_rows::{charge_events, charge_properties};
use row_groups::Owners;
use row_parts::run_rows;
use told_weights::RowWeights;

/// The runs of fields, of methods, of properties and of events.
const FIELDS: Owners = Owners {
    table: 0x02,
    column: 4,
    members: 0x04,
};

const METHODS: Owners = Owners {
    table: 0x02,
    column: 5,
    members: 0x06,
};

const PROPERTIES: Owners = Owners {
    table: 0x15,
    column: 1,
    members: 0x17,
};

const EVENTS: Owners = Owners {
    table: 0x12,
    column: 1,
    members: 0x14,
};

/// Takes off the weights of the fields of a type (II.22.37).
#[tactic(auto, unfolding(metadata_tables::specs::Schema::schema))]
pub(crate) fn charge_type_fields<W: RowWeights>(
    source: &WeightSource<'_, '_, W>,
    row: u32,
    left: u64,
) -> u64
    requires there { HasRow source.now.image.now 0x02 row }
    requires stands { Stands source.now.image.now }
    ensures { result ≡ left - sum_by (field_row source.now.image.now (W.told source.now.weights.now) source.now.sizes.now) (fields_of source.now.image.now row) }
{
    let rows = run_rows(source.image, FIELDS, row);
    charge_fields(source, rows, left)
}

/// Takes off the weights of the methods of a type (II.22.37).
#[tactic(auto, unfolding(metadata_tables::specs::Schema::schema))]
pub(crate) fn charge_type_methods<W: RowWeights>(
    source: &WeightSource<'_, '_, W>,
    row: u32,
    left: u64,
) -> u64
    requires there { HasRow source.now.image.now 0x02 row }
    requires overrides { AreOverriders source.now.image.now source.now.maps.now.overrides.now }
    requires stands { Stands source.now.image.now }
    ensures { result ≡ left - sum_by (method_row source.now.image.now (W.told source.now.weights.now)) (methods_of source.now.image.now row) }
{
    let rows = run_rows(source.image, METHODS, row);
    charge_methods(source, rows, left)
}

/// Takes off the weights of the properties of a type, by its first row of PropertyMap (II.22.35).
#[tactic(auto, unfolding(metadata_tables::specs::Schema::schema))]
pub(crate) fn charge_type_properties<W: RowWeights>(
    source: &WeightSource<'_, '_, W>,
    maps: &[u32],
    row: u32,
    left: u64,
) -> u64
    requires there { HasRow source.now.image.now 0x02 row }
    requires maps { AreFirsts source.now.image.now 0x15 (count_of source.now.image.now 0x02) maps.now }
    requires stands { Stands source.now.image.now }
    ensures { result ≡ left - sum_by (property_row source.now.image.now (W.told source.now.weights.now)) (properties_of source.now.image.now row) }
{
    let map = maps[row as usize];
    if map == 0 {
        return left;
    }
    let rows = run_rows(source.image, PROPERTIES, map);
    charge_properties(source, rows, left)
}

/// Takes off the weights of the events of a type, by its first row of EventMap (II.22.12).
#[tactic(auto, unfolding(metadata_tables::specs::Schema::schema))]
pub(crate) fn charge_type_events<W: RowWeights>(
    source: &WeightSource<'_, '_, W>,
    maps: &[u32],
    row: u32,
    left: u64,
) -> u64
    requires there { HasRow source.now.image.now 0x02 row }
    requires maps { AreFirsts source.now.image.now 0x12 (count_of source.now.image.now 0x02) maps.now }
    requires stands { Stands source.now.image.now }
    ensures { result ≡ left - sum_by (event_row source.now.image.now (W.told source.now.weights.now)) (events_of source.now.image.now row) }
{
    let map = maps[row as usize];
    if map == 0 {
        return left;
    }
    let rows = run_rows(source.image, EVENTS, map);
    charge_events(source, rows, left)
}

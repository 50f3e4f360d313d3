ghost use Rattle.std.specs.Prelude.{◌≡◌, IfOk};
ghost use Rattle.std.specs.List.{AllZip};
ghost use Rattle.image_methods.specs.Overriders.{AreOverriders};
ghost use Rattle.image_model.specs.Reading.{IsField, IsMethod, IsProperty, IsEvent};
ghost use Rattle.image_model.specs.Rows.{count_of, HasRow, fields_of, methods_of, properties_of, events_of};
ghost use Rattle.image_source.specs.Names.{names_of};
ghost use Rattle.image_source.specs.Ready.{IsReady};
ghost use Rattle.row_demands.specs.Members.{AreFirsts};

use assembly_tree::{Events, Fields, Methods, Properties};
use il_base::{Items, NoMemory};
use image_fields::fields;
use image_methods::methods;
use image_properties::{events, properties};
use image_source::Source;
use row_chains::Chains;
use row_groups::Owners;
use row_parts::run_rows;
use std::alloc::Global;

/// The runs of fields, of methods, of properties and of events.
const FIELDS: Owners = Owners {
    table: 0x02,
    column: 4,
    members: 0x04,
};

const METHODS: Owners = Owners {
    table: 0x02,
    column: 5,
    members: 0x06,
};

const PROPERTIES: Owners = Owners {
    table: 0x15,
    column: 1,
    members: 0x17,
};

const EVENTS: Owners = Owners {
    table: 0x12,
    column: 1,
    members: 0x14,
};

/// The fields of a type, those of `<Module>` among them (II.22.37).
#[tactic(auto, unfolding(metadata_tables::specs::Schema::schema))]
pub fn type_fields(alloc: Global, source: &Source<'_, '_>, row: u32) -> Result<Fields, NoMemory>
    requires there { HasRow source.now.image.now 0x02 row }
    requires ready { IsReady source.now.image.now source.now.kept.now source.now.sizes.now }
    ensures { IfOk result (AllZip (IsField source.now.image.now (names_of source.now.kept.now)) (fields_of source.now.image.now row)) }
{
    let rows = run_rows(source.image, FIELDS, row);
    fields(alloc, source, rows)
}

/// The methods of a type, those of `<Module>` among them (II.22.37).
#[tactic(auto, unfolding(metadata_tables::specs::Schema::schema))]
pub fn type_methods(
    alloc: Global,
    source: &Source<'_, '_>,
    overrides: &Chains<'_>,
    row: u32,
) -> Result<Methods, NoMemory>
    requires there { HasRow source.now.image.now 0x02 row }
    requires overrides { AreOverriders source.now.image.now overrides.now }
    requires ready { IsReady source.now.image.now source.now.kept.now source.now.sizes.now }
    ensures { IfOk result (AllZip (IsMethod source.now.image.now (names_of source.now.kept.now)) (methods_of source.now.image.now row)) }
{
    let rows = run_rows(source.image, METHODS, row);
    methods(alloc, source, overrides, rows)
}

/// The properties of a type, by its first row of PropertyMap (II.22.35).
#[tactic(auto, unfolding(metadata_tables::specs::Schema::schema))]
pub(crate) fn type_properties(
    alloc: Global,
    source: &Source<'_, '_>,
    maps: &[u32],
    row: u32,
) -> Result<Properties, NoMemory>
    requires there { HasRow source.now.image.now 0x02 row }
    requires maps { AreFirsts source.now.image.now 0x15 (count_of source.now.image.now 0x02) maps.now }
    requires ready { IsReady source.now.image.now source.now.kept.now source.now.sizes.now }
    ensures { IfOk result (AllZip (IsProperty source.now.image.now (names_of source.now.kept.now) row) (properties_of source.now.image.now row)) }
{
    let map = maps[row as usize];
    if map == 0 {
        return Ok(Items::new(alloc));
    }
    let rows = run_rows(source.image, PROPERTIES, map);
    properties(alloc, source, row, rows)
}

/// The events of a type, by its first row of EventMap (II.22.12).
#[tactic(auto, unfolding(metadata_tables::specs::Schema::schema))]
pub(crate) fn type_events(
    alloc: Global,
    source: &Source<'_, '_>,
    maps: &[u32],
    row: u32,
) -> Result<Events, NoMemory>
    requires there { HasRow source.now.image.now 0x02 row }
    requires maps { AreFirsts source.now.image.now 0x12 (count_of source.now.image.now 0x02) maps.now }
    requires ready { IsReady source.now.image.now source.now.kept.now source.now.sizes.now }
    ensures { IfOk result (AllZip (IsEvent source.now.image.now (names_of source.now.kept.now) row) (events_of source.now.image.now row)) }
{
    let map = maps[row as usize];
    if map == 0 {
        return Ok(Items::new(alloc));
    }
    let rows = run_rows(source.image, EVENTS, map);
    events(alloc, source, row, rows)
}

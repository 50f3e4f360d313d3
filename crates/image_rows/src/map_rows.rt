//! The rows of EventMap and PropertyMap (ECMA-335 II.22.12, II.22.35).
ghost use Rattle.std.specs.Prelude.{◌≡◌, ◌+◌, ◌-◌, ◌^◌, ◌<◌, ◌∷◌, [], length, sum_by, OnOk};
ghost use Rattle.std.specs.List.{flat_map};
ghost use Rattle.metadata_tables.specs.Encoding.{rows_in, IsRowOf};
ghost use Rattle.image_rows.specs.MapRows.{run_rows, map_rows, event_count, property_count};
ghost use Rattle.image_members.specs.Places.{lent, class_events, class_properties};
ghost use Rattle.image_members.specs.Pushing.{AddsRows};

use assembly_tree::{Event, Property};
use il_base::NoMemory;
use image_members::classes::Class;
use image_tokens::tokens::{EVENT_MAP, PROPERTY_MAP, run_cell};
use metadata_tables::{Rows, row_of_columns};

/// Adds a row of EventMap for each type that has events; all of them are `events`.
pub fn push_event_runs<'a>(
    rows: &mut Rows,
    classes: &[Class<'a>],
    events: &[&'a Event],
) -> Result<(), NoMemory>
    requires count { length classes.now < 2 ^ 24 - 2 }
    requires few { rows_in rows.old 0x12 + length classes.now < 2 ^ 24 }
    requires runs { sum_by event_count classes.now < 2 ^ 24 }
    requires all { lent events.now ≡ flat_map class_events classes.now }
    ensures { OnOk result (AddsRows 0x12 (map_rows event_count (length events.now) 2 1 classes.now) rows.old rows.new) }
{
    if events.is_empty() {
        return Ok(());
    }
    push_event_map(rows, classes, events.len())
}

/// Adds a row of PropertyMap for each type that has properties; all of them are `properties`.
pub fn push_property_runs<'a>(
    rows: &mut Rows,
    classes: &[Class<'a>],
    properties: &[&'a Property],
) -> Result<(), NoMemory>
    requires count { length classes.now < 2 ^ 24 - 2 }
    requires few { rows_in rows.old 0x15 + length classes.now < 2 ^ 24 }
    requires runs { sum_by property_count classes.now < 2 ^ 24 }
    requires all { lent properties.now ≡ flat_map class_properties classes.now }
    ensures { OnOk result (AddsRows 0x15 (map_rows property_count (length properties.now) 2 1 classes.now) rows.old rows.new) }
{
    if properties.is_empty() {
        return Ok(());
    }
    push_property_map(rows, classes, properties.len())
}

/// Adds a row of EventMap for each type that has events; there are `events` in all.
pub fn push_event_map<'a>(
    rows: &mut Rows,
    classes: &[Class<'a>],
    events: usize,
) -> Result<(), NoMemory>
    requires count { length classes.now < 2 ^ 24 - 2 }
    requires few { rows_in rows.old 0x12 + length classes.now < 2 ^ 24 }
    requires runs { sum_by event_count classes.now < 2 ^ 24 }
    ensures { OnOk result (AddsRows 0x12 (map_rows event_count events 2 1 classes.now) rows.old rows.new) }
{
    row_of_columns();
    let mut row: u32 = 2;
    let mut first: u32 = 1;
    for class in classes {
        let count = class.of.events.len();
        push_run(rows, EVENT_MAP, row, run_cell(events, first), count)?;
        row += 1;
        first += count as u32;
    }
    Ok(())
}

/// Adds a row of PropertyMap for each type that has properties; there are `properties` in all.
pub fn push_property_map<'a>(
    rows: &mut Rows,
    classes: &[Class<'a>],
    properties: usize,
) -> Result<(), NoMemory>
    requires count { length classes.now < 2 ^ 24 - 2 }
    requires few { rows_in rows.old 0x15 + length classes.now < 2 ^ 24 }
    requires runs { sum_by property_count classes.now < 2 ^ 24 }
    ensures { OnOk result (AddsRows 0x15 (map_rows property_count properties 2 1 classes.now) rows.old rows.new) }
{
    row_of_columns();
    let mut row: u32 = 2;
    let mut first: u32 = 1;
    for class in classes {
        let count = class.of.properties.len();
        push_run(rows, PROPERTY_MAP, row, run_cell(properties, first), count)?;
        row += 1;
        first += count as u32;
    }
    Ok(())
}

/// Adds the row of a type whose run has so many items, if it has any.
fn push_run(rows: &mut Rows, table: u8, row: u32, cell: u32, count: usize) -> Result<(), NoMemory>
    requires few { rows_in rows.old table < 2 ^ 24 - 1 }
    requires cells { IsRowOf table (row ∷ cell ∷ []) }
    ensures { OnOk result (AddsRows table (run_rows row cell count) rows.old rows.new) }
{
    if count == 0 {
        return Ok(());
    }
    rows.push(table, &[row, cell])?;
    Ok(())
}

ghost use Rattle.std.specs.Prelude.{◌≡◌, ◌<◌, ◌≤◌, ◌+◌, ◌^◌, ℕ, IfOk, Contains};
ghost use Rattle.std.specs.List.{AllZip, range_with_len};
ghost use Rattle.image_model.specs.Reading.{IsEvent};
ghost use Rattle.image_model.specs.Rows.{HasRow, events_of};
ghost use Rattle.image_source.specs.Names.{names_of};
ghost use Rattle.image_source.specs.Ready.{IsReady};

use crate::accessor_rows::accessors;
use assembly_tree::{Event, Events};
use il_base::NoMemory;
use image_attributes::attributes;
use image_source::{Source, owner};
use row_groups::Rows;
use row_parts::{Part, four, number_of, read_all, text_of};
use std::alloc::Global;

/// Events of a type that stand side by side, in row order (II.22.13).
pub fn events(
    alloc: Global,
    source: &Source<'_, '_>,
    type_row: u32,
    rows: Rows,
) -> Result<Events, NoMemory>
    requires few { rows.first + rows.count ≤ 2 ^ 32 }
    requires type_there { HasRow source.now.image.now 0x02 type_row }
    requires there { (k : ℕ) → k < rows.count → HasRow source.now.image.now 0x14 (rows.first + k) × Contains (events_of source.now.image.now type_row) (rows.first + k) }
    requires ready { IsReady source.now.image.now source.now.kept.now source.now.sizes.now }
    ensures { IfOk result (AllZip (IsEvent source.now.image.now (names_of source.now.kept.now) type_row) (range_with_len rows.first rows.count)) }
{
    read_all(alloc, &EventRows { source, type_row }, rows)
}

/// Rows of Event of a type.
#[derive(Drop)]
struct EventRows<'r, 's, 'a> {
    source: &'r Source<'s, 'a>,
    type_row: u32,
}

impl<'r, 's, 'a> Part<Event> for EventRows<'r, 's, 'a> {
    ghost use Rattle.std.specs.Prelude.{Contains};
    ghost use Rattle.image_model.specs.Reading.{IsEvent};
    ghost use Rattle.image_model.specs.Rows.{HasRow, events_of};
    ghost use Rattle.image_source.specs.Names.{names_of};
    ghost use Rattle.image_source.specs.Ready.{IsReady};

    ghost there = { λ it row. HasRow it.source.now.image.now 0x02 it.type_row × HasRow it.source.now.image.now 0x14 row × Contains (events_of it.source.now.image.now it.type_row) row × IsReady it.source.now.image.now it.source.now.kept.now it.source.now.sizes.now };

    ghost gives = { λ it row event. IsEvent it.source.now.image.now (names_of it.source.now.kept.now) it.type_row row event };

    fn read(&self, alloc: Global, row: u32) -> Result<Event, NoMemory> {
        event(alloc, self.source, self.type_row, row)
    }
}

/// An event of a type.
#[tactic(auto, unfolding(metadata_tables::specs::Schema::schema))]
fn event(alloc: Global, source: &Source<'_, '_>, type_row: u32, row: u32) -> Result<Event, NoMemory>
    requires type_there { HasRow source.now.image.now 0x02 type_row }
    requires there { HasRow source.now.image.now 0x14 row }
    requires owned { Contains (events_of source.now.image.now type_row) row }
    requires ready { IsReady source.now.image.now source.now.kept.now source.now.sizes.now }
    ensures { IfOk result (IsEvent source.now.image.now (names_of source.now.kept.now) type_row row) }
{
    let flags = number_of(source.image, 0x14, row, 0);
    let value = source.image.tables().cell(0x14, row, 2);
    let (name, of, accessors, attributes) = four(
        text_of(alloc, source.image, 0x14, row, 1),
        owner(alloc, source, value),
        accessors(alloc, source.image, u64::from(row) * 2, type_row),
        attributes(alloc, source, u64::from(row) * 32 + 10),
    )?;
    Ok(Event {
        name,
        flags,
        of,
        accessors,
        attributes,
    })
}

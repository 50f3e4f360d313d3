//! The rows of Event (ECMA-335 II.22.13).
ghost use Rattle.std.specs.Prelude.{◌∷◌, [], OnOk};
ghost use Rattle.image_rows.specs.EventRows.{event_bytes, IsEventRow, CanPushEvent};
ghost use Rattle.image_members.specs.Places.{lent};
ghost use Rattle.image_members.specs.Pushing.{Pushes, CanPush};

use assembly_tree::Event;
use il_base::NoMemory;
use image_members::type_indexes::type_index;
use image_tokens::members::refer_text;
use image_tokens::references::References;
use image_tokens::tokens::EVENT;
use metadata_tables::{Rows, row_of_columns};
use std::alloc::Global;

/// Adds the rows of events.
pub fn push_events<'a>(
    alloc: Global,
    refs: &mut References<'a>,
    rows: &mut Rows,
    events: &[&'a Event],
) -> Result<(), NoMemory>
    requires { CanPush 0x14 CanPushEvent event_bytes (lent events.now) refs.old rows.old }
    ensures { OnOk result (Pushes 0x14 IsEventRow event_bytes (lent events.now) refs.old refs.new rows.old rows.new) }
{
    for event in events {
        push_event(alloc, refs, rows, event)?;
    }
    Ok(())
}

/// Adds the row of an event.
fn push_event<'a>(
    alloc: Global,
    refs: &mut References<'a>,
    rows: &mut Rows,
    event: &'a Event,
) -> Result<(), NoMemory>
    requires { CanPush 0x14 CanPushEvent event_bytes (event.now ∷ []) refs.old rows.old }
    ensures { OnOk result (Pushes 0x14 IsEventRow event_bytes (event.now ∷ []) refs.old refs.new rows.old rows.new) }
{
    row_of_columns();
    let name = refer_text(refs, &event.name)?;
    let of = type_index(alloc, refs, &event.of)?;
    rows.push(EVENT, &[u32::from(event.flags), name, of])?;
    Ok(())
}

//! The rows of properties, events and their accessors (ECMA-335 II.22.13, II.22.28, II.22.34).
ghost use Rattle.std.specs.Prelude.{◌^◌, ◌<◌, map, OnOk};
ghost use Rattle.image_members.specs.DeclaredMembers.{methods_count};
ghost use Rattle.image_members.specs.Lists.{longest_of, accessor_lists, accessor_items};
ghost use Rattle.image_rows.specs.SemanticsRows.{semantics_row, CanAddAccessors};
ghost use Rattle.image_rows.specs.Filled.{HoldsProperties};
ghost use Rattle.image_members.specs.Ordered.{IsOrdered};
ghost use Rattle.image_members.specs.Pushing.{AddsRows};
ghost use Rattle.image_tables.specs.Filling.{property_part, IsReady, Fills};

use assembly_tree::Assembly;
use il_base::NoMemory;
use image_members::classes::Class;
use image_members::order::Ordered;
use image_rows::accessor_lists::{accessor_tables, have_no_accessors};
use image_rows::event_rows::push_events;
use image_rows::longest::longest_accessing;
use image_rows::property_rows::push_properties;
use image_rows::semantics_rows::push_all_accessors;
use image_tokens::references::References;
use metadata_tables::Rows;
use std::alloc::Global;

/// Adds the rows of properties and events, and of their accessors.
pub fn push_property_part<'a>(
    alloc: Global,
    refs: &mut References<'a>,
    rows: &mut Rows,
    a: &Assembly,
    classes: &[Class<'a>],
    ordered: &Ordered<'a>,
) -> Result<(), NoMemory>
    requires ready { IsReady 4 (property_part classes.now) a.now classes.now refs.old rows.old }
    requires ordered { IsOrdered a.now classes.now ordered.now }
    ensures { OnOk result (Fills 4 (property_part classes.now) (HoldsProperties a.now classes.now) refs.old refs.new rows.old rows.new) }
{
    push_properties(alloc, refs, rows, ordered.properties.as_slice())?;
    push_events(alloc, refs, rows, ordered.events.as_slice())?;
    push_accessor_rows(alloc, rows, a, classes, ordered)?;
    Ok(())
}

/// Adds the rows of accessors.
fn push_accessor_rows<'a>(
    alloc: Global,
    rows: &mut Rows,
    a: &Assembly,
    classes: &[Class<'a>],
    ordered: &Ordered<'a>,
) -> Result<(), NoMemory>
    requires ordered { IsOrdered a.now classes.now ordered.now }
    requires counted { methods_count a.now classes.now < 2 ^ 24 }
    requires owners { longest_of (accessor_lists a.now classes.now) < 2 ^ 24 }
    requires can { CanAddAccessors (accessor_items a.now classes.now) rows.old }
    ensures { OnOk result (AddsRows 0x18 (map semantics_row (accessor_items a.now classes.now)) rows.old rows.new) }
{
    if have_no_accessors(ordered) {
        return Ok(());
    }
    let tables = accessor_tables(alloc, a, classes)?;
    let count = longest_accessing(tables.as_slice());
    push_all_accessors(rows, tables.as_slice(), count)?;
    Ok(())
}

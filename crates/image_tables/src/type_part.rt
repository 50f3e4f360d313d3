//! The rows of types (ECMA-335 II.22.8, II.22.12, II.22.23, II.22.32, II.22.35, II.22.37).
ghost use Rattle.std.specs.Prelude.{OnOk};
ghost use Rattle.image_rows.specs.Filled.{HoldsTypes, HoldsTypeRows};
ghost use Rattle.image_members.specs.Ordered.{IsOrdered};
ghost use Rattle.image_tables.specs.Filling.{type_part, IsReady, Fills};
ghost use Rattle.image_tables.specs.TypePart.{bases_bytes, AddsTypeRows};

use assembly_tree::Assembly;
use il_base::NoMemory;
use image_members::classes::Class;
use image_members::order::Ordered;
use image_rows::class_rows::{push_layouts, push_nested};
use image_rows::interface_rows::push_all_interfaces;
use image_rows::map_rows::{push_event_runs, push_property_runs};
use image_rows::type_rows::{Counts, Runs, push_module_type, push_types};
use image_tokens::references::References;
use metadata_tables::Rows;
use std::alloc::Global;

/// Adds the rows of types, of their interfaces, layouts and enclosers, and of the runs of their events
/// and properties.
pub fn push_type_part<'a>(
    alloc: Global,
    refs: &mut References<'a>,
    rows: &mut Rows,
    a: &Assembly,
    classes: &[Class<'a>],
    ordered: &Ordered<'a>,
) -> Result<(), NoMemory>
    requires ready { IsReady 2 (type_part classes.now) a.now classes.now refs.old rows.old }
    requires ordered { IsOrdered a.now classes.now ordered.now }
    ensures { OnOk result (Fills 2 (type_part classes.now) (HoldsTypes a.now classes.now) refs.old refs.new rows.old rows.new) }
{
    push_all_types(alloc, refs, rows, a, classes, ordered)?;
    push_all_interfaces(alloc, refs, rows, classes)?;
    push_layouts(rows, classes)?;
    push_nested(rows, classes)?;
    push_event_runs(rows, classes, ordered.events.as_slice())?;
    push_property_runs(rows, classes, ordered.properties.as_slice())?;
    Ok(())
}

/// Adds the rows of TypeDef: that of `<Module>`, and then those of the classes.
fn push_all_types<'a>(
    alloc: Global,
    refs: &mut References<'a>,
    rows: &mut Rows,
    a: &Assembly,
    classes: &[Class<'a>],
    ordered: &Ordered<'a>,
) -> Result<(), NoMemory>
    requires ready { IsReady 2 (bases_bytes classes.now) a.now classes.now refs.old rows.old }
    requires ordered { IsOrdered a.now classes.now ordered.now }
    ensures { OnOk result (AddsTypeRows a.now classes.now refs.old refs.new rows.old rows.new) }
{
    let counts = Counts {
        fields: ordered.fields.len(),
        methods: ordered.methods.len(),
    };
    push_module_type(refs, rows, counts)?;
    let first = Runs {
        field: a.fields.len() as u32 + 1,
        method: a.methods.len() as u32 + 1,
    };
    push_types(alloc, refs, rows, classes, first, counts)?;
    Ok(())
}

//! The members of types.
ghost use Rattle.std.specs.Prelude.{◌≡◌, ◌+◌, OnOk, IfOk, fold, length};
ghost use Rattle.assembly_tree.specs.declared.typedef.TypeDef.TheViews.{out-TypeDef};
ghost use Rattle.listing_model.specs.Members.{property, event, field_contents};
ghost use Rattle.print_terms.specs.Rows.{under};
ghost use Rattle.print_types.specs.Pieces.{front_drawn, members_drawn};

use crate::heads::write_layout;
use assembly_tree::{Event, Method, Property, TypeDef};
use il_lists::NoMemory;
use print_leaves::Paper;
use print_members::{
    write_attributes, write_event, write_fields, write_property, write_typar_lines,
};
use print_methods::write_methods;
use print_terms::ExternKeys;
use std::alloc::Global;
use type_terms::TypeId;

/// Layout, attributes, generic parameters with attributes, and fields. `number` is that of the first data, and that behind the last
/// is answered.
pub(crate) fn write_front(
    paper: &mut Paper,
    externs: &ExternKeys<'_>,
    of: &TypeDef,
    number: u64,
) -> Result<u64, NoMemory>
    ensures drawn { OnOk result (paper.new ≡ front_drawn externs.now paper.old (out-TypeDef of.now) number) }
    ensures behind { IfOk result (λ next. next ≡ number + length (field_contents (out-TypeDef of.now).fields)) }
{
    write_layout(paper, of.layout)?;
    write_attributes(paper, externs, of.attributes.as_slice())?;
    write_typar_lines(paper, externs, of.generics.as_slice())?;
    let next = write_fields(paper, externs, of.fields.as_slice(), number)?;
    Ok(next)
}

/// Methods, properties and events of a type with this path.
pub(crate) fn write_members(
    paper: &mut Paper,
    alloc: Global,
    externs: &ExternKeys<'_>,
    path: &[TypeId],
    of: &TypeDef,
) -> Result<(), NoMemory>
    ensures { OnOk result (paper.new ≡ members_drawn externs.now path.now paper.old (out-TypeDef of.now)) }
{
    let methods = of.methods.as_slice();
    write_methods(paper, alloc, externs, methods)?;
    write_properties(paper, externs, path, methods, of.properties.as_slice())?;
    write_events(paper, externs, path, methods, of.events.as_slice())?;
    Ok(())
}

fn write_properties(
    paper: &mut Paper,
    externs: &ExternKeys<'_>,
    path: &[TypeId],
    methods: &[Method],
    properties: &[Property],
) -> Result<(), NoMemory>
    ensures { OnOk result (paper.new ≡ fold (λ q x. under q (property externs.now path.now methods.now x)) paper.old properties.now) }
{
    for property in properties {
        write_property(paper, externs, path, methods, property)?;
    }
    Ok(())
}

fn write_events(
    paper: &mut Paper,
    externs: &ExternKeys<'_>,
    path: &[TypeId],
    methods: &[Method],
    events: &[Event],
) -> Result<(), NoMemory>
    ensures { OnOk result (paper.new ≡ fold (λ q x. under q (event externs.now path.now methods.now x)) paper.old events.now) }
{
    for event in events {
        write_event(paper, externs, path, methods, event)?;
    }
    Ok(())
}

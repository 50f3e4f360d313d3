//! Properties and events (ECMA-335 II.17, II.18).
ghost use Rattle.std.specs.Prelude.{◌≡◌, OnOk};
ghost use Rattle.listing_model.specs.Members.{property, event};
ghost use Rattle.print_leaves.specs.Page.{drawn};
ghost use Rattle.print_terms.specs.Rows.{under};
ghost use Rattle.print_members.specs.Rows.{property_head, event_head, inner_drawn};

use crate::accessors::write_accessors;
use crate::constants::write_constant_opt;
use crate::flags::write_property_flags;
use crate::values::{close_braces, open_braces, write_attributes};
use assembly_tree::{Accessor, Attribute, Event, Method, Property};
use il_lexer::word;
use il_lists::NoMemory;
use print_leaves::Paper;
use print_terms::{ExternKeys, write_arguments, write_convention, write_owner, write_type};
use type_terms::TypeId;

/// A property of a class with this path and these methods.
pub fn write_property(
    paper: &mut Paper,
    externs: &ExternKeys<'_>,
    path: &[TypeId],
    methods: &[Method],
    x: &Property,
) -> Result<(), NoMemory>
    ensures { OnOk result (paper.new ≡ under paper.old (property externs.now path.now methods.now x.now)) }
{
    write_property_head(paper, externs, x)?;
    let accessors = x.accessors.as_slice();
    let attributes = x.attributes.as_slice();
    write_inner(paper, externs, path, methods, accessors, attributes)?;
    Ok(())
}

/// An event likewise.
pub fn write_event(
    paper: &mut Paper,
    externs: &ExternKeys<'_>,
    path: &[TypeId],
    methods: &[Method],
    x: &Event,
) -> Result<(), NoMemory>
    ensures { OnOk result (paper.new ≡ under paper.old (event externs.now path.now methods.now x.now)) }
{
    write_event_head(paper, externs, x)?;
    let accessors = x.accessors.as_slice();
    let attributes = x.attributes.as_slice();
    write_inner(paper, externs, path, methods, accessors, attributes)?;
    Ok(())
}

// The line of a property's head.
#[tactic(auto, using(print_terms::proofs::Rows::star_row))]
fn write_property_head(
    paper: &mut Paper,
    externs: &ExternKeys<'_>,
    x: &Property,
) -> Result<(), NoMemory>
    ensures { OnOk result (paper.new ≡ drawn paper.old (property_head externs.now x.now)) }
{
    paper.line(word::DOT_PROPERTY)?;
    write_property_flags(paper, u32::from(x.flags))?;
    write_convention(paper, &x.sig)?;
    write_type(paper, externs, &x.sig.ret)?;
    paper.name(x.name.as_str())?;
    write_arguments(paper, externs, &x.sig)?;
    write_constant_opt(paper, &x.constant)?;
    Ok(())
}

// The line of an event's head.
#[tactic(auto, using(print_terms::proofs::Rows::star_row))]
fn write_event_head(paper: &mut Paper, externs: &ExternKeys<'_>, x: &Event) -> Result<(), NoMemory>
    ensures { OnOk result (paper.new ≡ drawn paper.old (event_head externs.now x.now)) }
{
    paper.line(word::DOT_EVENT)?;
    write_property_flags(paper, u32::from(x.flags))?;
    write_owner(paper, externs, &x.of)?;
    paper.name(x.name.as_str())?;
    Ok(())
}

// Accessors and attributes in braces.
fn write_inner(
    paper: &mut Paper,
    externs: &ExternKeys<'_>,
    path: &[TypeId],
    methods: &[Method],
    accessors: &[Accessor],
    attributes: &[Attribute],
) -> Result<(), NoMemory>
    ensures { OnOk result (paper.new ≡ inner_drawn externs.now path.now methods.now paper.old accessors.now attributes.now) }
{
    open_braces(paper)?;
    write_accessors(paper, externs, path, methods, accessors)?;
    write_attributes(paper, externs, attributes)?;
    close_braces(paper)?;
    Ok(())
}

//! The heads of types, and their layouts.
ghost use Rattle.std.specs.Prelude.{◌≡◌, OnOk};
ghost use Rattle.assembly_tree.specs.declared.typedef.TypeDef.TheViews.{out-TypeDef};
ghost use Rattle.listing_model.specs.Classes.{layout_lines, extends_opt, implements};
ghost use Rattle.listing_model.specs.Shown.{none, opt_below};
ghost use Rattle.print_leaves.specs.Page.{drawn};
ghost use Rattle.print_terms.specs.Rows.{in_row};
ghost use Rattle.print_types.specs.Pieces.{class_head};

use assembly_tree::{Layout, TypeDef};
use il_lexer::word;
use il_lists::NoMemory;
use print_leaves::Paper;
use print_members::{write_owners, write_typars, write_type_flags};
use print_terms::{ExternKeys, write_owner};
use type_terms::Owner;

/// The line of a type's head.
#[tactic(auto, using(print_terms::proofs::Rows::star_row))]
pub(crate) fn write_head(
    paper: &mut Paper,
    externs: &ExternKeys<'_>,
    of: &TypeDef,
) -> Result<(), NoMemory>
    ensures { OnOk result (paper.new ≡ drawn paper.old (class_head externs.now (out-TypeDef of.now))) }
{
    paper.line(word::DOT_CLASS)?;
    write_type_flags(paper, of.flags)?;
    paper.type_id(&of.id)?;
    write_typars(paper, externs, of.generics.as_slice())?;
    write_base(paper, externs, &of.extends)?;
    write_interfaces(paper, externs, of.implements.as_slice())?;
    Ok(())
}

// `extends`, where there is a base type.
fn write_base(
    paper: &mut Paper,
    externs: &ExternKeys<'_>,
    base: &Option<Owner>,
) -> Result<(), NoMemory>
    ensures { OnOk result (paper.new ≡ drawn paper.old (extends_opt externs.now base.now none)) }
{
    if let Some(base) = base {
        paper.word(word::EXTENDS)?;
        write_owner(paper, externs, base)?;
    }
    Ok(())
}

// `implements`, where there are interfaces.
fn write_interfaces(
    paper: &mut Paper,
    externs: &ExternKeys<'_>,
    owners: &[Owner],
) -> Result<(), NoMemory>
    ensures { OnOk result (paper.new ≡ drawn paper.old (opt_below (implements externs.now owners.now))) }
{
    if owners.is_empty() {
        return Ok(());
    }
    paper.word(word::IMPLEMENTS)?;
    write_owners(paper, externs, owners)?;
    Ok(())
}

/// `.pack` and `.size`, where there is a layout.
pub(crate) fn write_layout(paper: &mut Paper, layout: Option<Layout>) -> Result<(), NoMemory>
    ensures { OnOk result (paper.new ≡ in_row paper.old (layout_lines layout)) }
{
    if let Some(layout) = layout {
        paper.line(word::DOT_PACK)?;
        paper.natural(u64::from(layout.pack))?;
        paper.line(word::DOT_SIZE)?;
        paper.natural(u64::from(layout.size))?;
    }
    Ok(())
}

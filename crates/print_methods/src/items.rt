//! What stands in the braces of a method.
ghost use Rattle.std.specs.Prelude.{◌≡◌, OnOk, fold};
ghost use Rattle.listing_model.specs.Methods.{wants_line, line_flags, param_line, row_lines, override, body_opt, method_items};
ghost use Rattle.listing_model.specs.Shown.{none};
ghost use Rattle.print_leaves.specs.Page.{drawn};
ghost use Rattle.print_methods.specs.Pieces.{entry_drawn, row_step};
ghost use Rattle.print_terms.specs.Rows.{under, in_row};

use assembly_tree::{Body, Method, Param};
use il_lexer::word;
use il_lists::NoMemory;
use print_bodies::write_body;
use print_leaves::Paper;
use print_members::{
    write_attributes, write_constant_opt, write_flags_number, write_number_in_brackets,
    write_typar_lines,
};
use print_terms::{ExternKeys, write_method_ref};
use std::alloc::Global;
use type_terms::MethodRef;

/// Attributes, generic parameters with attributes, rows of parameters, overrides, the entry point, and the body.
pub(crate) fn write_items(
    paper: &mut Paper,
    alloc: Global,
    externs: &ExternKeys<'_>,
    m: &Method,
) -> Result<(), NoMemory>
    ensures { OnOk result (paper.new ≡ in_row paper.old (method_items externs.now m.now)) }
{
    write_attributes(paper, externs, m.attributes.as_slice())?;
    write_typar_lines(paper, externs, m.generics.as_slice())?;
    write_rows(paper, externs, m.params.as_slice())?;
    write_overrides(paper, externs, m.overrides.as_slice())?;
    write_entrypoint(paper, m.entry)?;
    write_body_opt(paper, alloc, externs, &m.body)?;
    Ok(())
}

// The lines of rows of parameters.
fn write_rows(paper: &mut Paper, externs: &ExternKeys<'_>, rows: &[Param]) -> Result<(), NoMemory>
    ensures { OnOk result (paper.new ≡ fold (row_step externs.now) paper.old rows.now) }
{
    for row in rows {
        write_row(paper, externs, row)?;
    }
    Ok(())
}

// The line of a row with its attributes behind it, where it wants one.
fn write_row(paper: &mut Paper, externs: &ExternKeys<'_>, row: &Param) -> Result<(), NoMemory>
    ensures { OnOk result (paper.new ≡ row_step externs.now paper.old row.now) }
{
    if wants_line(row) {
        write_param_line(paper, row)?;
        write_attributes(paper, externs, row.attributes.as_slice())?;
    }
    Ok(())
}

// Whether a row has a line of its own: the head doesn't say all of it.
fn wants_line(row: &Param) -> bool
    ensures { result ≡ wants_line row.now }
{
    row.number == 0
        || row.constant.is_some()
        || !row.attributes.is_empty()
        || (row.name.is_empty() && row.flags == 0)
}

fn write_param_line(paper: &mut Paper, row: &Param) -> Result<(), NoMemory>
    ensures { OnOk result (paper.new ≡ under paper.old (param_line row.now)) }
{
    paper.line(word::DOT_PARAM)?;
    write_number_in_brackets(paper, u64::from(row.number))?;
    write_line_flags(paper, row)?;
    write_constant_opt(paper, &row.constant)?;
    Ok(())
}

// `flags(..)`, for number 0 alone.
fn write_line_flags(paper: &mut Paper, row: &Param) -> Result<(), NoMemory>
    ensures { OnOk result (paper.new ≡ drawn paper.old (line_flags row.now none)) }
{
    if row.number == 0 && row.flags != 0 {
        write_flags_number(paper, u32::from(row.flags))?;
    }
    Ok(())
}

fn write_overrides(
    paper: &mut Paper,
    externs: &ExternKeys<'_>,
    overrides: &[MethodRef],
) -> Result<(), NoMemory>
    ensures { OnOk result (paper.new ≡ fold (λ q r. under q (override externs.now r)) paper.old overrides.now) }
{
    for r in overrides {
        paper.line(word::DOT_OVERRIDE)?;
        paper.word(word::METHOD)?;
        write_method_ref(paper, externs, r)?;
    }
    Ok(())
}

fn write_entrypoint(paper: &mut Paper, entry: bool) -> Result<(), NoMemory>
    ensures { OnOk result (paper.new ≡ entry_drawn paper.old entry) }
{
    if entry {
        paper.line(word::DOT_ENTRYPOINT)?;
    }
    Ok(())
}

fn write_body_opt(
    paper: &mut Paper,
    alloc: Global,
    externs: &ExternKeys<'_>,
    body: &Option<Body>,
) -> Result<(), NoMemory>
    ensures { OnOk result (paper.new ≡ in_row paper.old (body_opt externs.now body.now)) }
{
    if let Some(body) = body {
        write_body(paper, alloc, externs, body)?;
    }
    Ok(())
}

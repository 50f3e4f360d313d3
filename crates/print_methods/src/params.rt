//! The parameters in the head of a method.
ghost use Rattle.std.specs.Prelude.{◌≡◌, suc, length, OnOk};
ghost use Rattle.std.specs.Option.{option_copied};
ghost use Rattle.listing_model.specs.Methods.{parameter, parameters};
ghost use Rattle.print_methods.specs.Tables.{IsTable, row_drawn, row_name_drawn};
ghost use Rattle.print_terms.specs.Rows.{under, between};

use crate::rows::{places_by_number, row_at};
use assembly_tree::Param;
use il_lexer::word;
use il_lists::{Items, NoMemory};
use print_leaves::Paper;
use print_members::write_parameter_flags;
use print_terms::{ExternKeys, write_type};
use std::alloc::Global;
use type_terms::SigType;

/// The parameters with commas between them, by their rows and types.
pub(crate) fn write_parameters(
    paper: &mut Paper,
    alloc: Global,
    externs: &ExternKeys<'_>,
    rows: &[Param],
    types: &[SigType],
) -> Result<(), NoMemory>
    ensures { OnOk result (paper.new ≡ between paper.old (parameters externs.now rows.now 1 types.now)) }
{
    let places = places_by_number(alloc, rows, types.len())?;
    write_between(paper, externs, rows, &places, types)?;
    Ok(())
}

// The same by the places of the rows.
fn write_between(
    paper: &mut Paper,
    externs: &ExternKeys<'_>,
    rows: &[Param],
    places: &Items<Option<usize>>,
    types: &[SigType],
) -> Result<(), NoMemory>
    requires counted { length places.now ≡ suc (length types.now) }
    requires table { IsTable rows.now places.now }
    ensures { OnOk result (paper.new ≡ between paper.old (parameters externs.now rows.now 1 types.now)) }
{
    let [first, more @ ..] = types else {
        return Ok(());
    };
    write_parameter(paper, externs, row_at(rows, places, 1), first)?;
    for place in 0..more.len() {
        paper.word(word::COMMA)?;
        write_parameter(
            paper,
            externs,
            row_at(rows, places, place + 2),
            &more[place],
        )?;
    }
    Ok(())
}

// A parameter: its flags, its type and its name.
fn write_parameter(
    paper: &mut Paper,
    externs: &ExternKeys<'_>,
    row: Option<&Param>,
    of: &SigType,
) -> Result<(), NoMemory>
    ensures { OnOk result (paper.new ≡ under paper.old (parameter externs.now (option_copied row.entry) of.now)) }
{
    write_row_flags(paper, row)?;
    write_type(paper, externs, of)?;
    write_row_name(paper, row)?;
    Ok(())
}

fn write_row_flags(paper: &mut Paper, row: Option<&Param>) -> Result<(), NoMemory>
    ensures { OnOk result (paper.new ≡ row_drawn paper.old (option_copied row.entry)) }
{
    if let Some(row) = row {
        write_parameter_flags(paper, u32::from(row.flags))?;
    }
    Ok(())
}

fn write_row_name(paper: &mut Paper, row: Option<&Param>) -> Result<(), NoMemory>
    ensures { OnOk result (paper.new ≡ row_name_drawn paper.old (option_copied row.entry)) }
{
    if let Some(row) = row {
        if !row.name.is_empty() {
            paper.name(row.name.as_str())?;
        }
    }
    Ok(())
}

//! Locals (ECMA-335 II.15.4.1.3).
ghost use Rattle.std.specs.Prelude.{◌≡◌, OnOk};
ghost use Rattle.listing_model.specs.Bodies.{local, locals_from, locals};
ghost use Rattle.listing_model.specs.Shown.{none};
ghost use Rattle.print_bodies.specs.Lines.{init_opt, locals_line};
ghost use Rattle.print_leaves.specs.Page.{drawn};
ghost use Rattle.print_terms.specs.Rows.{under, between, in_row};

use il_lexer::word;
use il_lists::NoMemory;
use print_leaves::Paper;
use print_members::write_number_in_brackets;
use print_terms::{ExternKeys, write_type};
use type_terms::SigType;

/// The line of locals, where there are some or they are set to zero.
pub(crate) fn write_locals(
    paper: &mut Paper,
    externs: &ExternKeys<'_>,
    init: bool,
    types: &[SigType],
) -> Result<(), NoMemory>
    ensures { OnOk result (paper.new ≡ in_row paper.old (locals externs.now init types.now)) }
{
    if init || !types.is_empty() {
        write_line(paper, externs, init, types)?;
    }
    Ok(())
}

// The line of locals.
fn write_line(
    paper: &mut Paper,
    externs: &ExternKeys<'_>,
    init: bool,
    types: &[SigType],
) -> Result<(), NoMemory>
    ensures { OnOk result (paper.new ≡ drawn paper.old (locals_line externs.now init types.now)) }
{
    paper.line(word::DOT_LOCALS)?;
    write_init(paper, init)?;
    paper.word(word::OPEN_PAREN)?;
    write_between(paper, externs, types)?;
    paper.word(word::CLOSE_PAREN)?;
    Ok(())
}

// `init`, where locals are set to zero.
fn write_init(paper: &mut Paper, init: bool) -> Result<(), NoMemory>
    ensures { OnOk result (paper.new ≡ drawn paper.old (init_opt init none)) }
{
    if init {
        paper.word(word::INIT)?;
    }
    Ok(())
}

// The locals with commas between them.
fn write_between(
    paper: &mut Paper,
    externs: &ExternKeys<'_>,
    types: &[SigType],
) -> Result<(), NoMemory>
    ensures { OnOk result (paper.new ≡ between paper.old (locals_from externs.now 0 types.now)) }
{
    let [first, more @ ..] = types else {
        return Ok(());
    };
    write_local(paper, externs, 0, first)?;
    for place in 0..more.len() {
        paper.word(word::COMMA)?;
        write_local(paper, externs, place as u64 + 1, &more[place])?;
    }
    Ok(())
}

// `[k]` and a type.
fn write_local(
    paper: &mut Paper,
    externs: &ExternKeys<'_>,
    number: u64,
    of: &SigType,
) -> Result<(), NoMemory>
    ensures { OnOk result (paper.new ≡ under paper.old (local externs.now number of.now)) }
{
    write_number_in_brackets(paper, number)?;
    write_type(paper, externs, of)?;
    Ok(())
}

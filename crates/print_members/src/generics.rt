//! Generic parameters (ECMA-335 II.10.1.7).
ghost use Rattle.std.specs.Prelude.{◌≡◌, OnOk, map};
ghost use Rattle.il_lexer.specs.declared.word.TheConstants as words;
ghost use Rattle.listing_model.specs.Members.{bounds, typar, typar_key, typars};
ghost use Rattle.listing_model.specs.Shown.{line, opt_below};
ghost use Rattle.listing_model.specs.Types.{owner};
ghost use Rattle.print_leaves.specs.Page.{drawn};
ghost use Rattle.print_terms.specs.Rows.{under, between};
ghost use Rattle.print_members.specs.Rows.{typar_drawn, typars_drawn};

use crate::flags::write_typar_flags;
use crate::values::{write_attributes, write_number_in_brackets};
use assembly_tree::Generic;
use il_lexer::word;
use il_lists::NoMemory;
use print_leaves::Paper;
use print_terms::{ExternKeys, write_owner};
use type_terms::Owner;

/// Owners with commas between them.
pub fn write_owners(
    paper: &mut Paper,
    externs: &ExternKeys<'_>,
    owners: &[Owner],
) -> Result<(), NoMemory>
    ensures { OnOk result (paper.new ≡ between paper.old (map (owner externs.now) owners.now)) }
{
    let [first, more @ ..] = owners else {
        return Ok(());
    };
    write_owner(paper, externs, first)?;
    for of in more {
        paper.word(word::COMMA)?;
        write_owner(paper, externs, of)?;
    }
    Ok(())
}

/// The generic parameters of a type or a method in `<` and `>`, where it has some.
pub fn write_typars(
    paper: &mut Paper,
    externs: &ExternKeys<'_>,
    generics: &[Generic],
) -> Result<(), NoMemory>
    ensures { OnOk result (paper.new ≡ drawn paper.old (opt_below (typars externs.now generics.now))) }
{
    if generics.is_empty() {
        return Ok(());
    }
    paper.word(word::LESS)?;
    write_between(paper, externs, generics)?;
    paper.word(word::GREATER)?;
    Ok(())
}

// Generic parameters with commas between them.
fn write_between(
    paper: &mut Paper,
    externs: &ExternKeys<'_>,
    generics: &[Generic],
) -> Result<(), NoMemory>
    ensures { OnOk result (paper.new ≡ between paper.old (map (typar externs.now) generics.now)) }
{
    let [first, more @ ..] = generics else {
        return Ok(());
    };
    write_typar(paper, externs, first)?;
    for generic in more {
        paper.word(word::COMMA)?;
        write_typar(paper, externs, generic)?;
    }
    Ok(())
}

// A generic parameter: its flags, the types that bound it, and its name.
fn write_typar(
    paper: &mut Paper,
    externs: &ExternKeys<'_>,
    generic: &Generic,
) -> Result<(), NoMemory>
    ensures { OnOk result (paper.new ≡ under paper.old (typar externs.now generic.now)) }
{
    write_typar_flags(paper, u32::from(generic.flags))?;
    write_bounds(paper, externs, generic.bounds.as_slice())?;
    paper.name(generic.name.as_str())?;
    Ok(())
}

// The types that bound it in parentheses, where there are some.
fn write_bounds(
    paper: &mut Paper,
    externs: &ExternKeys<'_>,
    owners: &[Owner],
) -> Result<(), NoMemory>
    ensures { OnOk result (paper.new ≡ drawn paper.old (opt_below (bounds externs.now owners.now))) }
{
    if owners.is_empty() {
        return Ok(());
    }
    paper.word(word::OPEN_PAREN)?;
    write_owners(paper, externs, owners)?;
    paper.word(word::CLOSE_PAREN)?;
    Ok(())
}

/// The lines of `.param type` for the generic parameters that have attributes, each with these behind it.
pub fn write_typar_lines(
    paper: &mut Paper,
    externs: &ExternKeys<'_>,
    generics: &[Generic],
) -> Result<(), NoMemory>
    ensures { OnOk result (paper.new ≡ typars_drawn externs.now paper.old 1 generics.now) }
{
    for place in 0..generics.len() {
        write_typar_line(paper, externs, place as u64 + 1, &generics[place])?;
    }
    Ok(())
}

fn write_typar_line(
    paper: &mut Paper,
    externs: &ExternKeys<'_>,
    number: u64,
    generic: &Generic,
) -> Result<(), NoMemory>
    ensures { OnOk result (paper.new ≡ typar_drawn externs.now paper.old number generic.now) }
{
    if generic.attributes.is_empty() {
        return Ok(());
    }
    write_typar_key(paper, number)?;
    write_attributes(paper, externs, generic.attributes.as_slice())?;
    Ok(())
}

// `.param type [k]`.
fn write_typar_key(paper: &mut Paper, number: u64) -> Result<(), NoMemory>
    ensures { OnOk result (paper.new ≡ drawn paper.old (line words.DOT_PARAM (typar_key number))) }
{
    paper.line(word::DOT_PARAM)?;
    paper.word(word::TYPE)?;
    write_number_in_brackets(paper, number)?;
    Ok(())
}

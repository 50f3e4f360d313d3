//! Fields (ECMA-335 II.16).
ghost use Rattle.std.specs.Prelude.{◌≡◌, ◌+◌, [], OnOk, IfOk, length};
ghost use Rattle.listing_model.specs.Members.{field, offset_opt, at_data, behind_field, field_contents};
ghost use Rattle.listing_model.specs.Shown.{none};
ghost use Rattle.print_leaves.specs.Page.{drawn};
ghost use Rattle.print_terms.specs.Rows.{under};
ghost use Rattle.print_members.specs.Rows.{field_drawn, fields_drawn};

use crate::constants::write_constant_opt;
use crate::flags::write_field_flags;
use crate::values::{write_attributes, write_number_in_brackets};
use assembly_tree::Field;
use il_lexer::word;
use il_lists::{Bytes, NoMemory};
use print_leaves::Paper;
use print_terms::{ExternKeys, write_type};

/// Fields with their attributes. `number` is that of the first data, and that behind the last is answered.
pub fn write_fields(
    paper: &mut Paper,
    externs: &ExternKeys<'_>,
    fields: &[Field],
    number: u64,
) -> Result<u64, NoMemory>
    ensures drawn { OnOk result (paper.new ≡ fields_drawn externs.now paper.old number fields.now) }
    ensures behind { IfOk result (λ next. next ≡ number + length (field_contents fields.now)) }
{
    let mut next = number;
    for field in fields {
        write_field(paper, externs, next, field)?;
        write_attributes(paper, externs, field.attributes.as_slice())?;
        next = data_behind(next, &field.content)?;
    }
    Ok(next)
}

/// The number of the next data behind a field with this content, or none. More than 2^64 have no room in memory.
pub fn data_behind(number: u64, content: &Option<Bytes>) -> Result<u64, NoMemory>
    ensures { IfOk result (λ next. next ≡ behind_field number content.now) }
{
    if content.is_none() {
        return Ok(number);
    }
    if number == u64::MAX {
        return Err(NoMemory);
    }
    Ok(number + 1)
}

// The line of a field.
fn write_field(
    paper: &mut Paper,
    externs: &ExternKeys<'_>,
    number: u64,
    x: &Field,
) -> Result<(), NoMemory>
    ensures { OnOk result (paper.new ≡ under paper.old (field externs.now number x.now)) }
{
    paper.line(word::DOT_FIELD)?;
    write_offset(paper, x.offset)?;
    write_field_flags(paper, u32::from(x.flags))?;
    write_type(paper, externs, &x.of)?;
    paper.name(x.name.as_str())?;
    write_constant_opt(paper, &x.constant)?;
    write_data_place(paper, number, &x.content)?;
    Ok(())
}

// `[n]`, where there is an offset.
fn write_offset(paper: &mut Paper, offset: Option<u32>) -> Result<(), NoMemory>
    ensures { OnOk result (paper.new ≡ drawn paper.old (offset_opt [] offset none)) }
{
    if let Some(offset) = offset {
        write_number_in_brackets(paper, u64::from(offset))?;
    }
    Ok(())
}

// `at D_k`, where there is data.
fn write_data_place(paper: &mut Paper, number: u64, content: &Option<Bytes>) -> Result<(), NoMemory>
    ensures { OnOk result (paper.new ≡ drawn paper.old (at_data [] number content.now none)) }
{
    if content.is_some() {
        paper.word(word::AT)?;
        paper.data_label(number)?;
    }
    Ok(())
}

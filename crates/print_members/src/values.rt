//! Attributes, data, numbers in brackets, and braces (ECMA-335 II.16.3, II.21).
ghost use Rattle.std.specs.Prelude.{◌≡◌, OnOk};
ghost use Rattle.il_lexer.specs.declared.word.TheConstants as words;
ghost use Rattle.listing_model.specs.Members.{number_in_brackets};
ghost use Rattle.listing_model.specs.Shown.{none, line};
ghost use Rattle.listing_model.specs.Values.{custom, data_line};
ghost use Rattle.print_leaves.specs.Page.{drawn};
ghost use Rattle.print_terms.specs.Rows.{under};
ghost use Rattle.print_members.specs.Rows.{customs_drawn};

use assembly_tree::Attribute;
use il_lexer::word;
use il_lists::NoMemory;
use print_leaves::Paper;
use print_terms::{ExternKeys, write_method_ref};

/// `{`, alone in a line.
pub fn open_braces(paper: &mut Paper) -> Result<(), NoMemory>
    ensures { OnOk result (paper.new ≡ drawn paper.old (line words.OPEN_BRACE none)) }
{
    paper.line(word::OPEN_BRACE)
}

/// `}`, alone in a line.
pub fn close_braces(paper: &mut Paper) -> Result<(), NoMemory>
    ensures { OnOk result (paper.new ≡ drawn paper.old (line words.CLOSE_BRACE none)) }
{
    paper.line(word::CLOSE_BRACE)
}

/// `[n]`, apart from what stands before it.
pub fn write_number_in_brackets(paper: &mut Paper, number: u64) -> Result<(), NoMemory>
    ensures { OnOk result (paper.new ≡ drawn paper.old (number_in_brackets number none)) }
{
    paper.bracket()?;
    paper.natural(number)?;
    paper.word(word::CLOSE_BRACKET)?;
    Ok(())
}

/// A line for each attribute.
pub fn write_attributes(
    paper: &mut Paper,
    externs: &ExternKeys<'_>,
    attributes: &[Attribute],
) -> Result<(), NoMemory>
    ensures { OnOk result (paper.new ≡ customs_drawn externs.now paper.old attributes.now) }
{
    for attribute in attributes {
        write_attribute(paper, externs, attribute)?;
    }
    Ok(())
}

fn write_attribute(
    paper: &mut Paper,
    externs: &ExternKeys<'_>,
    attribute: &Attribute,
) -> Result<(), NoMemory>
    ensures { OnOk result (paper.new ≡ under paper.old (custom externs.now attribute.now)) }
{
    paper.line(word::DOT_CUSTOM)?;
    write_method_ref(paper, externs, &attribute.constructor)?;
    paper.equals_bytes(attribute.value.as_slice())?;
    Ok(())
}

/// The line of the data with this number.
pub fn write_data_line(paper: &mut Paper, number: u64, bytes: &[u8]) -> Result<(), NoMemory>
    ensures { OnOk result (paper.new ≡ under paper.old (data_line number bytes.now)) }
{
    paper.line(word::DOT_DATA)?;
    paper.data_label(number)?;
    paper.word(word::EQUALS)?;
    paper.byte_array(bytes)?;
    Ok(())
}

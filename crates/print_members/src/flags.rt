//! Rows of flags: their words in order, and the rest as a number.
ghost use Rattle.std.specs.Prelude.{◌≡◌, OnOk, fold, map};
ghost use Rattle.ilasm_grammar.specs.declared.nonterminals.TheConstants as n;
ghost use Rattle.ilasm_grammar.specs.declared.productions.TheConstants as p;
ghost use Rattle.listing_model.specs.Flags.{flag_items, type_flag_items, flags_below, field_words, method_words, implementation_words, parameter_words, property_words, typar_words, assembly_words};
ghost use Rattle.print_leaves.specs.Page.{drawn};
ghost use Rattle.print_terms.specs.Rows.{in_row};
ghost use Rattle.print_members.specs.Flags.{listed, word_step, nested_step, bits_step, rest_drawn, flags_drawn};

use crate::tables::{
    ASSEMBLY_WORDS, FIELD_WORDS, FlagRow, IMPLEMENTATION_WORDS, METHOD_WORDS, NESTED_ACCESS,
    PARAMETER_WORDS, PROPERTY_WORDS, TYPAR_WORDS, TYPE_ACCESS, TYPE_WORDS,
};
use il_lexer::word;
use il_lists::NoMemory;
use print_leaves::Paper;

// The words that hold for these flags, in the order of the table.
fn write_words(paper: &mut Paper, words: &[FlagRow], flags: u32) -> Result<(), NoMemory>
    ensures { OnOk result (paper.new ≡ fold (word_step flags) paper.old words.now) }
{
    for row in words {
        if flags & row.group == row.value {
            paper.word(row.word)?;
        }
    }
    Ok(())
}

// The same, each behind `nested`.
fn write_nested_words(paper: &mut Paper, words: &[FlagRow], flags: u32) -> Result<(), NoMemory>
    ensures { OnOk result (paper.new ≡ fold (nested_step flags) paper.old words.now) }
{
    for row in words {
        if flags & row.group == row.value {
            paper.word(word::NESTED)?;
            paper.word(row.word)?;
        }
    }
    Ok(())
}

// The bits of the groups of which a word holds.
fn said_bits(words: &[FlagRow], flags: u32) -> u32
    ensures { result ≡ fold (bits_step flags) 0 words.now }
{
    let mut bits = 0;
    for row in words {
        if flags & row.group == row.value {
            bits |= row.group;
        }
    }
    bits
}

/// `flags(0x..)`.
pub fn write_flags_number(paper: &mut Paper, flags: u32) -> Result<(), NoMemory>
    ensures { OnOk result (paper.new ≡ drawn paper.old (flags_below flags)) }
{
    paper.word(word::FLAGS)?;
    paper.word(word::OPEN_PAREN)?;
    paper.hexadecimal(0, u64::from(flags))?;
    paper.word(word::CLOSE_PAREN)?;
    Ok(())
}

// `flags(..)`, where there is a bit.
fn write_rest(paper: &mut Paper, flags: u32) -> Result<(), NoMemory>
    ensures { OnOk result (paper.new ≡ rest_drawn paper.old flags) }
{
    if flags != 0 {
        write_flags_number(paper, flags)?;
    }
    Ok(())
}

// The words of a table, and what they leave.
fn write_flags(paper: &mut Paper, words: &[FlagRow], flags: u32) -> Result<(), NoMemory>
    ensures { OnOk result (paper.new ≡ flags_drawn (map listed words.now) flags paper.old) }
{
    write_words(paper, words, flags)?;
    let bits = said_bits(words, flags);
    write_rest(paper, flags ^ (flags & bits))?;
    Ok(())
}

/// The flags of a type: who sees it, behind `nested` where that is one of the values for nested types, and the others.
pub fn write_type_flags(paper: &mut Paper, flags: u32) -> Result<(), NoMemory>
    ensures { OnOk result (paper.new ≡ in_row paper.old (type_flag_items flags)) }
{
    write_words(paper, &TYPE_ACCESS, flags)?;
    write_nested_words(paper, &NESTED_ACCESS, flags)?;
    write_flags(paper, &TYPE_WORDS, flags ^ (flags & 7))?;
    Ok(())
}

/// Those of a field.
pub(crate) fn write_field_flags(paper: &mut Paper, flags: u32) -> Result<(), NoMemory>
    ensures { OnOk result (paper.new ≡ in_row paper.old (flag_items n.FIELD_ATTR p.FIELD_ATTR_FLAGS field_words flags)) }
{
    write_flags(paper, &FIELD_WORDS, flags)?;
    Ok(())
}

/// Those of a method.
pub fn write_method_flags(paper: &mut Paper, flags: u32) -> Result<(), NoMemory>
    ensures { OnOk result (paper.new ≡ in_row paper.old (flag_items n.METHOD_ATTR p.METHOD_ATTR_FLAGS method_words flags)) }
{
    write_flags(paper, &METHOD_WORDS, flags)?;
    Ok(())
}

/// Those of a method's implementation.
pub fn write_implementation_flags(paper: &mut Paper, flags: u32) -> Result<(), NoMemory>
    ensures { OnOk result (paper.new ≡ in_row paper.old (flag_items n.IMPL_ATTR p.IMPL_ATTR_FLAGS implementation_words flags)) }
{
    write_flags(paper, &IMPLEMENTATION_WORDS, flags)?;
    Ok(())
}

/// Those of a parameter.
pub fn write_parameter_flags(paper: &mut Paper, flags: u32) -> Result<(), NoMemory>
    ensures { OnOk result (paper.new ≡ in_row paper.old (flag_items n.PARAM_ATTR p.PARAM_ATTR_FLAGS parameter_words flags)) }
{
    write_flags(paper, &PARAMETER_WORDS, flags)?;
    Ok(())
}

/// Those of a property or an event.
pub(crate) fn write_property_flags(paper: &mut Paper, flags: u32) -> Result<(), NoMemory>
    ensures { OnOk result (paper.new ≡ in_row paper.old (flag_items n.PROPERTY_ATTR p.PROPERTY_ATTR_FLAGS property_words flags)) }
{
    write_flags(paper, &PROPERTY_WORDS, flags)?;
    Ok(())
}

/// Those of a generic parameter.
pub(crate) fn write_typar_flags(paper: &mut Paper, flags: u32) -> Result<(), NoMemory>
    ensures { OnOk result (paper.new ≡ in_row paper.old (flag_items n.TYPAR_ATTR p.TYPAR_ATTR_FLAGS typar_words flags)) }
{
    write_flags(paper, &TYPAR_WORDS, flags)?;
    Ok(())
}

/// Those of an assembly.
pub fn write_assembly_flags(paper: &mut Paper, flags: u32) -> Result<(), NoMemory>
    ensures { OnOk result (paper.new ≡ in_row paper.old (flag_items n.ASSEMBLY_ATTR p.ASSEMBLY_ATTR_FLAGS assembly_words flags)) }
{
    write_flags(paper, &ASSEMBLY_WORDS, flags)?;
    Ok(())
}

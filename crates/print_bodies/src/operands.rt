//! Operands of instructions.
ghost use Rattle.std.specs.Prelude.{◌≡◌, OnOk, fold};
ghost use Rattle.listing_model.specs.Bodies.{real_bits, comma_name, targets, is_short_real, mnemonic};
ghost use Rattle.listing_model.specs.Shown.{none, opt_below, w};
ghost use Rattle.print_leaves.specs.Page.{drawn};
ghost use Rattle.print_terms.specs.Rows.{under};
ghost use Rattle.print_bodies.specs.Lines.{token_drawn};
ghost use Rattle.opcode_table.specs.Opcodes.{kind_of};

use crate::offsets::Offsets;
use assembly_tree::Operand;
use il_lexer::{word, word_number};
use il_lists::NoMemory;
use opcode_table::{Op, OperandKind, kind_of, word_of};
use print_leaves::Paper;
use print_terms::{ExternKeys, write_field_ref, write_method_ref, write_owner};

/// The mnemonic of an opcode.
pub(crate) fn write_mnemonic(paper: &mut Paper, op: Op) -> Result<(), NoMemory>
    ensures { OnOk result (paper.new ≡ drawn paper.old (w (mnemonic op) none)) }
{
    paper.word(mnemonic(op))?;
    Ok(())
}

// Its number among the words.
fn mnemonic(op: Op) -> u16
    ensures { result ≡ mnemonic op }
{
    match word_number(word_of(op).as_bytes()) {
        Some(number) => number,
        None => 0,
    }
}

/// The bits of a real number in the width that the opcode takes.
pub(crate) fn write_real(paper: &mut Paper, op: Op, bits: u64) -> Result<(), NoMemory>
    ensures { OnOk result (paper.new ≡ under paper.old (real_bits (is_short_real (kind_of op)) bits)) }
{
    write_bits(paper, is_short_real(kind_of(op)), bits)?;
    Ok(())
}

// Whether the operand is a real number of four bytes.
fn is_short_real(kind: OperandKind) -> bool
    ensures { result ≡ is_short_real kind }
{
    matches!(kind, OperandKind::Real4)
}

fn write_bits(paper: &mut Paper, short: bool, bits: u64) -> Result<(), NoMemory>
    ensures { OnOk result (paper.new ≡ under paper.old (real_bits short bits)) }
{
    paper.word(if short { word::FLOAT32 } else { word::FLOAT64 })?;
    paper.word(word::OPEN_PAREN)?;
    paper.hexadecimal(if short { 8 } else { 16 }, bits)?;
    paper.word(word::CLOSE_PAREN)?;
    Ok(())
}

/// The labels of targets with commas between them.
pub(crate) fn write_targets(
    paper: &mut Paper,
    code: &Offsets<'_>,
    places: &[u32],
) -> Result<(), NoMemory>
    ensures { OnOk result (paper.new ≡ drawn paper.old (opt_below (targets code.now places.now))) }
{
    match places {
        [] => Ok(()),
        [first, more @ ..] => {
            code.write_label(paper, *first)?;
            write_other_targets(paper, code, more)?;
            Ok(())
        }
    }
}

// The labels of targets, each behind a comma.
fn write_other_targets(
    paper: &mut Paper,
    code: &Offsets<'_>,
    places: &[u32],
) -> Result<(), NoMemory>
    ensures { OnOk result (paper.new ≡ fold (λ q k. under q (comma_name code.now k)) paper.old places.now) }
{
    for target in places {
        paper.word(word::COMMA)?;
        code.write_label(paper, *target)?;
    }
    Ok(())
}

/// A token that `ldtoken` takes.
pub(crate) fn write_token(
    paper: &mut Paper,
    externs: &ExternKeys<'_>,
    operand: &Operand,
) -> Result<(), NoMemory>
    ensures { OnOk result (paper.new ≡ token_drawn externs.now paper.old operand.now) }
{
    match operand {
        Operand::Method(r) => {
            paper.word(word::METHOD)?;
            write_method_ref(paper, externs, r.get())?;
            Ok(())
        }
        Operand::Field(r) => {
            paper.word(word::FIELD)?;
            write_field_ref(paper, externs, r.get())?;
            Ok(())
        }
        Operand::Of(owner) => {
            write_owner(paper, externs, owner.get())?;
            Ok(())
        }
        _ => Ok(()),
    }
}

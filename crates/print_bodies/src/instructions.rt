//! Instructions, each behind its label.
ghost use Rattle.std.specs.Prelude.{◌≡◌, OnOk};
ghost use Rattle.listing_model.specs.Bodies.{is_token, operand_item, instruction, instructions};
ghost use Rattle.print_terms.specs.Rows.{under, in_row};

use crate::offsets::{Offsets, behind};
use crate::operands::{write_mnemonic, write_real, write_targets, write_token};
use assembly_tree::{Ins, Operand};
use il_lexer::word;
use il_lists::NoMemory;
use opcode_table::{Op, OperandKind, kind_of};
use print_leaves::Paper;
use print_terms::{ExternKeys, write_field_ref, write_method_ref, write_owner};

/// The instructions of a body.
pub(crate) fn write_instructions(
    paper: &mut Paper,
    externs: &ExternKeys<'_>,
    code: &Offsets<'_>,
    all: &[Ins],
) -> Result<(), NoMemory>
    ensures { OnOk result (paper.new ≡ in_row paper.old (instructions externs.now code.now 0 all.now)) }
{
    let mut offset = 0;
    for ins in all {
        paper.label_line(offset)?;
        write_instruction(paper, externs, code, ins)?;
        offset = behind(offset, ins)?;
    }
    Ok(())
}

// An instruction.
fn write_instruction(
    paper: &mut Paper,
    externs: &ExternKeys<'_>,
    code: &Offsets<'_>,
    ins: &Ins,
) -> Result<(), NoMemory>
    ensures { OnOk result (paper.new ≡ under paper.old (instruction externs.now code.now ins.now)) }
{
    if is_token(kind_of(ins.op)) {
        paper.word(word::LDTOKEN)?;
        write_token(paper, externs, &ins.operand)?;
    } else {
        write_operand(paper, externs, code, ins.op, &ins.operand)?;
    }
    Ok(())
}

// Whether the operand is a method, a field or a type by its token.
fn is_token(kind: OperandKind) -> bool
    ensures { result ≡ is_token kind }
{
    matches!(kind, OperandKind::Token)
}

// An instruction by its opcode and its operand.
fn write_operand(
    paper: &mut Paper,
    externs: &ExternKeys<'_>,
    code: &Offsets<'_>,
    op: Op,
    operand: &Operand,
) -> Result<(), NoMemory>
    ensures { OnOk result (paper.new ≡ under paper.old (operand_item externs.now code.now op operand.now)) }
{
    match operand {
        Operand::Targets(targets) => {
            paper.word(word::SWITCH)?;
            paper.word(word::OPEN_PAREN)?;
            write_targets(paper, code, targets.get().as_slice())?;
            paper.word(word::CLOSE_PAREN)?;
            Ok(())
        }
        Operand::Text(units) => {
            paper.word(word::LDSTR)?;
            paper.units(units.get().as_slice())?;
            Ok(())
        }
        Operand::Nothing => {
            write_mnemonic(paper, op)?;
            Ok(())
        }
        Operand::Var(number) => {
            write_mnemonic(paper, op)?;
            paper.natural(u64::from(*number))?;
            Ok(())
        }
        Operand::Int(value) => {
            write_mnemonic(paper, op)?;
            paper.integer(i128::from(*value))?;
            Ok(())
        }
        Operand::Real(bits) => {
            write_mnemonic(paper, op)?;
            write_real(paper, op, *bits)?;
            Ok(())
        }
        Operand::Target(target) => {
            write_mnemonic(paper, op)?;
            code.write_label(paper, *target)?;
            Ok(())
        }
        Operand::Method(r) => {
            write_mnemonic(paper, op)?;
            write_method_ref(paper, externs, r.get())?;
            Ok(())
        }
        Operand::Field(r) => {
            write_mnemonic(paper, op)?;
            write_field_ref(paper, externs, r.get())?;
            Ok(())
        }
        Operand::Of(owner) => {
            write_mnemonic(paper, op)?;
            write_owner(paper, externs, owner.get())?;
            Ok(())
        }
    }
}

//! Bodies of methods.

use crate::outline::items::{push_number, push_units};
use crate::outline::terms::{push_field, push_method, push_owner, push_types};
use assembly_tree::{Body, Clause, ClauseKind, Ins, Operand};
use il_base::NoMemory;
use opcode_table::word_of;

/// A line for the header, one for the instructions and one for each clause.
pub(super) fn push_body(out: &mut String, body: &Body) -> Result<(), NoMemory> {
    push_number(out, "maxstack ", u64::from(body.bound))?;
    if body.init {
        out.push_str(" init")?;
    }
    if !body.locals.is_empty() {
        out.push_str(" locals ")?;
        push_types(out, body.locals.as_slice())?;
    }
    out.push_str("\ncode ")?;
    for (place, ins) in body.code.as_slice().iter().enumerate() {
        if place > 0 {
            out.push_str(" | ")?;
        }
        push_ins(out, ins)?;
    }
    out.push('\n')?;
    for clause in body.clauses.as_slice() {
        push_clause(out, clause)?;
    }
    Ok(())
}

// An instruction, with a blank before its operand.
fn push_ins(out: &mut String, ins: &Ins) -> Result<(), NoMemory> {
    out.push_str(word_of(ins.op))?;
    match &ins.operand {
        Operand::Nothing => {}
        Operand::Var(number) => push_number(out, " ", u64::from(*number))?,
        Operand::Int(number) => write!(out, " {number}")?,
        Operand::Real(bits) => write!(out, " {bits:x}")?,
        Operand::Target(number) => push_number(out, " to ", u64::from(*number))?,
        Operand::Targets(numbers) => {
            for number in numbers.get().as_slice() {
                push_number(out, " to ", u64::from(*number))?;
            }
        }
        operand => push_reference(out, operand)?,
    }
    Ok(())
}

// What an instruction names.
fn push_reference(out: &mut String, operand: &Operand) -> Result<(), NoMemory> {
    out.push(' ')?;
    match operand {
        Operand::Method(method) => push_method(out, method.get()),
        Operand::Field(field) => push_field(out, field.get()),
        Operand::Of(owner) => push_owner(out, owner.get()),
        Operand::Text(units) => push_units(out, units.get().as_slice()),
        _ => Ok(()),
    }
}

fn push_clause(out: &mut String, clause: &Clause) -> Result<(), NoMemory> {
    push_range(out, "try ", clause.try_start, clause.try_end)?;
    match &clause.kind {
        ClauseKind::Catch(owner) => {
            out.push_str(" catch ")?;
            push_owner(out, owner)?;
        }
        ClauseKind::Filter(start) => push_number(out, " filter ", u64::from(*start))?,
        ClauseKind::Finally => out.push_str(" finally")?,
        ClauseKind::Fault => out.push_str(" fault")?,
    }
    push_range(out, " ", clause.handler_start, clause.handler_end)?;
    out.push('\n')?;
    Ok(())
}

fn push_range(out: &mut String, before: &str, start: u32, end: u32) -> Result<(), NoMemory> {
    push_number(out, before, u64::from(start))?;
    push_number(out, " to ", u64::from(end))
}

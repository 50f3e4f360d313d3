//! Changes of bodies: of the whole, of the last instruction, and of the last clause.

use super::{Changeable, patch_of_last, put};
use crate::fault::Fault;
use crate::terms::{method_of, numbers, outside};
use crate::values::{number, number16, number32, two};
use assembly_tree::{Body, Clause, ClauseKind, Clauses, Code, Ins, Operand};
use il_lists::{Boxed, Items, NoMemory};
use opcode_table::{Op, op_of_word};
use std::alloc::Global;

impl Changeable for Body {
    fn change(&mut self, alloc: Global, field: &str, value: &str) -> Result<(), Fault> {
        let (inner, rest) = two(value)?;
        match field {
            "body" => patch_whole(alloc, self, inner, rest),
            "ins" => patch_instruction(alloc, &mut self.code, inner, rest),
            "clause" => patch_of_last(alloc, &mut self.clauses, inner, rest),
            _ => Err(Fault::Meaningless),
        }
    }
}

/// `locals COUNT`, `code COUNT` for so many `nop`, or `catches COUNT NAME`.
fn patch_whole(alloc: Global, of: &mut Body, field: &str, value: &str) -> Result<(), Fault> {
    match field {
        "locals" => put(&mut of.locals, numbers(alloc, number32(value)?)),
        "code" => put(&mut of.code, nops(alloc, number32(value)?)),
        "catches" => put(&mut of.clauses, catches(alloc, value)),
        _ => Err(Fault::Meaningless),
    }
}

/// So many clauses that catch the type of a name: `COUNT NAME`.
fn catches(alloc: Global, value: &str) -> Result<Clauses, Fault> {
    let (count, name) = two(value)?;
    let mut clauses = Items::new(alloc);
    for _ in 0..number32(count)? {
        push_catch(alloc, &mut clauses, name)?;
    }
    Ok(clauses)
}

fn nops(alloc: Global, count: u32) -> Result<Code, NoMemory> {
    let mut code = Items::new(alloc);
    for _ in 0..count {
        code.push(Ins {
            op: Op::Nop,
            operand: Operand::Nothing,
        })?;
    }
    Ok(code)
}

fn push_catch(alloc: Global, clauses: &mut Clauses, name: &str) -> Result<(), NoMemory> {
    let owner = outside(alloc, name)?;
    clauses.push(Clause {
        kind: ClauseKind::Catch(owner),
        try_start: 0,
        try_end: 1,
        handler_start: 1,
        handler_end: 2,
    })
}

/// Puts an instruction in the place of the last one: the mnemonic as the field, and the operand.
fn patch_instruction(
    alloc: Global,
    code: &mut Code,
    field: &str,
    value: &str,
) -> Result<(), Fault> {
    let Some(op) = op_of_word(field) else {
        return Err(Fault::Meaningless);
    };
    if code.pop().is_none() {
        return Err(Fault::Meaningless);
    }
    let operand = operand_of(alloc, value)?;
    code.push(Ins { op, operand })?;
    Ok(())
}

/// An operand: `nothing .`, `int N`, `var N`, `real BITS`, `to N`, `to_each N` for 0 and N, `type NAME` or `method ..`.
fn operand_of(alloc: Global, value: &str) -> Result<Operand, Fault> {
    match two(value)? {
        ("nothing", _) => Ok(Operand::Nothing),
        ("int", word) => match word.parse::<i64>() {
            Ok(number) => Ok(Operand::Int(number)),
            Err(_) => Err(Fault::Meaningless),
        },
        ("var", word) => Ok(Operand::Var(number16(word)?)),
        ("real", word) => Ok(Operand::Real(number(word)?)),
        ("to", word) => Ok(Operand::Target(number32(word)?)),
        ("to_each", word) => to_each(alloc, number32(word)?),
        ("type", name) => of_type(alloc, name),
        ("method", words) => of_method(alloc, words),
        _ => Err(Fault::Meaningless),
    }
}

fn to_each(alloc: Global, number: u32) -> Result<Operand, Fault> {
    let targets = Items::pair(alloc, 0, number)?;
    Ok(Operand::Targets(Boxed::new(alloc, targets)?))
}

fn of_type(alloc: Global, name: &str) -> Result<Operand, Fault> {
    let owner = outside(alloc, name)?;
    Ok(Operand::Of(Boxed::new(alloc, owner)?))
}

fn of_method(alloc: Global, words: &str) -> Result<Operand, Fault> {
    let method = method_of(alloc, words)?;
    Ok(Operand::Method(Boxed::new(alloc, method)?))
}

impl Changeable for Clause {
    fn change(&mut self, _alloc: Global, field: &str, value: &str) -> Result<(), Fault> {
        let number = number32(value)?;
        match field {
            "try_start" => self.try_start = number,
            "try_end" => self.try_end = number,
            "handler_start" => self.handler_start = number,
            "handler_end" => self.handler_end = number,
            "filter" => self.kind = ClauseKind::Filter(number),
            _ => return Err(Fault::Meaningless),
        }
        Ok(())
    }
}

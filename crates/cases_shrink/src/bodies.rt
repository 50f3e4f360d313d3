//! Bodies as words tell them.

use crate::fault::Fault;
use assembly_tree::{Body, Code, Ins, Operand};
use il_lists::{Boxed, Items};
use opcode_table::{Op, op_of_word};
use std::alloc::Global;

/// The body of these instructions.
///
/// # Errors
///
/// The word doesn't fit, or there was no memory.
pub fn body_of(alloc: Global, word: &str) -> Result<Body, Fault> {
    let mut code = Items::new(alloc);
    for piece in word.split(',') {
        add_piece(alloc, &mut code, piece)?;
    }
    Ok(Body {
        bound: 8,
        init: false,
        locals: Items::new(alloc),
        code,
        clauses: Items::new(alloc),
    })
}

/// The piece, and how often it stands.
fn repeated(piece: &str) -> Result<(&str, u32), Fault> {
    match piece.split_once('*') {
        None => Ok((piece, 1)),
        Some((piece, count)) => Ok((piece, number(count)?)),
    }
}

fn number(text: &str) -> Result<u32, Fault> {
    match text.parse::<u32>() {
        Ok(number) => Ok(number),
        Err(_) => Err(Fault::Word),
    }
}

fn opcode(word: &str) -> Result<Op, Fault> {
    match op_of_word(word) {
        Some(op) => Ok(op),
        None => Err(Fault::Word),
    }
}

/// Adds the instructions of a piece.
fn add_piece(alloc: Global, code: &mut Code, piece: &str) -> Result<(), Fault> {
    let (piece, count) = repeated(piece)?;
    match piece.split_once('>') {
        None => add_plain(code, opcode(piece)?, count),
        Some((word, targets)) => match targets.split_once(':') {
            None => add_branches(code, opcode(word)?, targets, count),
            Some((first, second)) => {
                add_switch(alloc, code, opcode(word)?, number(first)?, number(second)?)
            }
        },
    }
}

fn add_plain(code: &mut Code, op: Op, count: u32) -> Result<(), Fault> {
    for _ in 0..count {
        code.push(Ins {
            op,
            operand: Operand::Nothing,
        })?;
    }
    Ok(())
}

fn add_branches(code: &mut Code, op: Op, target: &str, count: u32) -> Result<(), Fault> {
    for _ in 0..count {
        let to = target_from(code.len(), target)?;
        code.push(Ins {
            op,
            operand: Operand::Target(to),
        })?;
    }
    Ok(())
}

/// The target that a branch at `place` has.
fn target_from(place: usize, target: &str) -> Result<u32, Fault> {
    let Ok(place) = u32::try_from(place) else {
        return Err(Fault::Word);
    };
    let to = if let Some(ahead) = target.strip_prefix('+') {
        place.checked_add(number(ahead)?)
    } else if let Some(back) = target.strip_prefix('-') {
        place.checked_sub(number(back)?)
    } else {
        Some(number(target)?)
    };
    match to {
        Some(to) => Ok(to),
        None => Err(Fault::Word),
    }
}

fn add_switch(
    alloc: Global,
    code: &mut Code,
    op: Op,
    first: u32,
    second: u32,
) -> Result<(), Fault> {
    let targets = Boxed::new(alloc, Items::pair(alloc, first, second)?)?;
    code.push(Ins {
        op,
        operand: Operand::Targets(targets),
    })?;
    Ok(())
}

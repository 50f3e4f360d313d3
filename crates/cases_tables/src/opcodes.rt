//! The opcodes: a row of four parts is the opcode's bytes, its name in code, its mnemonic and what follows it in a body; a row of three
//! is `alias`, a word, and the name of the opcode that it means.

use crate::fault::Fault;
use crate::rows::{differs, is_row, told};
use opcode_table::{Op, kind_of, op_of_bytes, op_of_word, word_of};

/// Compares the rows of a text with the table of opcodes.
///
/// # Errors
///
/// A row doesn't fit, an answer can't be written, or there was no memory.
pub fn compare(rt: &HostRuntime, name: &str, text: &str) -> Result<(), Fault> {
    let mut rows: usize = 0;
    let mut opcodes: usize = 0;
    for line in text.lines() {
        if is_row(line) {
            rows = rows.saturating_add(1);
            let is_same = match line.strip_prefix("alias ") {
                Some(alias) => is_alias(rt, alias)?,
                None => {
                    opcodes = opcodes.saturating_add(1);
                    is_opcode(rt, line)?
                }
            };
            if !is_same {
                differs(rt, name, rows, line)?;
            }
        }
    }
    told(rt, name, opcodes, count())
}

/// Whether a row is what the table has for its bytes, and the table finds its mnemonic.
fn is_opcode(rt: &HostRuntime, line: &str) -> Result<bool, Fault> {
    let Some((digits, rest)) = line.split_once(' ') else {
        return Err(Fault::Line);
    };
    let Ok(number) = u16::from_str_radix(digits, 16) else {
        return Err(Fault::Line);
    };
    let [first, second] = number.to_be_bytes();
    let found = if digits.len() == 4 {
        op_of_bytes(first, Some(second))
    } else {
        op_of_bytes(second, None)
    };
    let Some(op) = found else {
        return Ok(false);
    };
    let word = word_of(op);
    let kind = kind_of(op);
    let row = format!(in rt.alloc(); "{op:?} {word} {kind:?}")?;
    Ok(row.as_str() == rest && op_of_word(word) == Some(op))
}

/// Whether the word of an alias means the opcode that stands behind it.
fn is_alias(rt: &HostRuntime, alias: &str) -> Result<bool, Fault> {
    let Some((word, name)) = alias.split_once(' ') else {
        return Err(Fault::Line);
    };
    match op_of_word(word) {
        Some(op) => Ok(format!(in rt.alloc(); "{op:?}")?.as_str() == name),
        None => Ok(false),
    }
}

/// How many opcodes there are: by their first byte, or by their second behind 0xFE.
fn count() -> usize {
    let mut found: usize = 0;
    for byte in 0..=255u8 {
        for op in [op_of_bytes(byte, None), op_of_bytes(0xFE, Some(byte))] {
            if op.is_some() {
                found = found.saturating_add(1);
            }
        }
    }
    found
}

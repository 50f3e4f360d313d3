//! Opcodes by their bytes and by their mnemonics (ECMA-335 III.1.2).

use crate::fault::Fault;
use crate::values::{bytes_of, two};
use opcode_table::{bytes_of as opcode_bytes, kind_of, op_of_bytes, op_of_word, word_of};
use std::alloc::Global;

/// What `word MNEMONIC` or `bytes FIRST SECOND` names.
pub fn push_answer(alloc: Global, out: &mut String, line: &str) -> Result<(), Fault> {
    match two(line)? {
        ("word", word) => push_word(out, word),
        ("bytes", bytes) => push_bytes(out, bytes_of(alloc, bytes)?.as_slice()),
        _ => Err(Fault::Meaningless),
    }
}

fn push_word(out: &mut String, word: &str) -> Result<(), Fault> {
    let Some(op) = op_of_word(word) else {
        out.push_str("none")?;
        return Ok(());
    };
    let name = word_of(op);
    let kind = kind_of(op);
    match opcode_bytes(op) {
        (first, None) => write!(out, "{name}, {first:02X}, {kind:?}")?,
        (first, Some(second)) => write!(out, "{name}, {first:02X} {second:02X}, {kind:?}")?,
    }
    Ok(())
}

fn push_bytes(out: &mut String, bytes: &[u8]) -> Result<(), Fault> {
    let found = match bytes {
        [first] => op_of_bytes(*first, None),
        [first, second] => op_of_bytes(*first, Some(*second)),
        _ => return Err(Fault::Meaningless),
    };
    match found {
        Some(op) => out.push_str(word_of(op))?,
        None => out.push_str("none")?,
    }
    Ok(())
}

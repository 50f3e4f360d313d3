//! Files of lines, and their answers.

use crate::fault::Fault;
use crate::{
    bodies, contents, frames, images, opcodes, packed, shelves, signatures, tables, tokens, trees,
};
use std::alloc::Global;
use std::fs;

/// The lines of a file, each with its answer behind it.
///
/// # Errors
///
/// The file can't be read, its name or a line of it has no meaning, or there was no memory.
pub fn answers_of(rt: &HostRuntime, name: &str) -> Result<String, Fault> {
    let Ok(text) = fs::read_to_string(rt, name) else {
        return Err(Fault::Unread);
    };
    let Some((_, end)) = name.rsplit_once('.') else {
        return Err(Fault::Meaningless);
    };
    let mut out = String::new(rt.alloc());
    match end {
        "opcodes" | "packed" | "tokens" | "tables" | "frames" | "bodies" => {
            push_single(rt.alloc(), &mut out, end, text.as_str())?;
        }
        "disk" => shelves::push_disk(rt, &mut out, text.as_str())?,
        _ => push_told(rt.alloc(), &mut out, end, text.as_str())?,
    }
    Ok(out)
}

/// Adds a line, with a colon where an answer follows. Whether one does.
pub fn push_line(out: &mut String, line: &str) -> Result<bool, Fault> {
    if line.is_empty() {
        return Ok(false);
    }
    out.push_str(line)?;
    if line.starts_with('#') {
        out.push('\n')?;
        return Ok(false);
    }
    out.push_str(": ")?;
    Ok(true)
}

/// The answers to lines that are answered one by one.
fn push_single(alloc: Global, out: &mut String, end: &str, text: &str) -> Result<(), Fault> {
    for line in text.lines() {
        if push_line(out, line)? {
            push_answer(alloc, out, end, line)?;
            out.push('\n')?;
        }
    }
    Ok(())
}

fn push_answer(alloc: Global, out: &mut String, end: &str, line: &str) -> Result<(), Fault> {
    match end {
        "opcodes" => opcodes::push_answer(alloc, out, line),
        "packed" => packed::push_answer(alloc, out, line),
        "tokens" => tokens::push_answer(alloc, out, line),
        "tables" => tables::push_answer(alloc, out, line),
        "frames" => frames::push_answer(alloc, out, line),
        _ => bodies::push_answer(alloc, out, line),
    }
}

/// The answers to lines of which each goes on from those before it.
fn push_told(alloc: Global, out: &mut String, end: &str, text: &str) -> Result<(), Fault> {
    match end {
        "heaps" => contents::push_answers(alloc, out, text),
        "types" => signatures::push_answers(alloc, out, text),
        "shelves" => shelves::push_answers(alloc, out, text),
        "trees" => trees::push_answers(alloc, out, text),
        "images" => images::push_answers(alloc, out, text),
        _ => Err(Fault::Meaningless),
    }
}

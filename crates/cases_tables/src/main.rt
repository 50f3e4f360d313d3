//! The tables of words, opcodes and the grammar beside the texts that they are made from: `cases_tables FILE ..` prints of each file,
//! whose name ends in `words.txt`, `opcodes.txt` or `grammar.txt`, each row that the built table has otherwise, and how many rows text
//! and table have.
//!
//! The status is 0 where each file was looked at, 2 where a word or a line doesn't fit, 3 where a file couldn't be read, 4 where the
//! answers couldn't be written, and 6 where there was no memory.
#![tactic(auto)]

mod fault;
mod grammar;
mod opcodes;
mod rows;
mod symbols;
mod words;

use crate::fault::Fault;
use std::process::ExitCode;
use std::{env, fs};

fn main(rt: HostRuntime) -> ExitCode {
    ExitCode::from(status(&rt))
}

/// The status for the words after the program's name.
fn status(rt: &HostRuntime) -> u8 {
    let Ok(words) = env::args(rt) else {
        return 2;
    };
    for word in words.skip(1) {
        if let Err(fault) = compare(rt, word.as_str()) {
            let _ = rt.eprintln(fault);
            return fault.status();
        }
    }
    0
}

/// Compares a file with the table that the end of its name says.
///
/// # Errors
///
/// There is no such table, the file can't be read, a line doesn't fit, the answers can't be written, or there was no memory.
fn compare(rt: &HostRuntime, name: &str) -> Result<(), Fault> {
    let Ok(text) = fs::read_to_string(rt, name) else {
        return Err(Fault::Unread);
    };
    if name.ends_with("words.txt") {
        words::compare(rt, name, text.as_str())
    } else if name.ends_with("opcodes.txt") {
        opcodes::compare(rt, name, text.as_str())
    } else if name.ends_with("grammar.txt") {
        grammar::compare(rt, name, text.as_str())
    } else {
        Err(Fault::Line)
    }
}

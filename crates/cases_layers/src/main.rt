//! Cases of the layers below the program: `cases_layers WORD..` reads the files that its words name, and prints each line of theirs
//! that isn't empty with its answer behind it. The end of a file's name says of which layer its lines are:
//!
//! | Ends in | Lines |
//! |---|---|
//! | `.opcodes` | opcodes by bytes and by mnemonics |
//! | `.packed` | packed numbers, both ways |
//! | `.tokens` | the first token of a source, or its lexical fault; its derivation, or its syntax fault |
//! | `.tables` | how streams of tables open; coded indexes, both ways |
//! | `.frames` | how images open, and what can be read of them |
//! | `.heaps` | what the heaps give for contents, and what stands at their indexes |
//! | `.bodies` | bodies of methods as they are read |
//! | `.types` | signatures as they are read, and types in a pool |
//! | `.shelves` | calls of a shelf and a console in memory |
//! | `.disk` | calls of the shelf of real files |
//! | `.trees` | whether changed trees are well formed, what trees weigh, and the order of types |
//! | `.images` | what stands in the images of sources |
//!
//! A line that begins with `#` is printed alone. The status is 0 where all could be answered, 2 where a word or a line has no meaning,
//! 3 where a file couldn't be read, 4 where the answers couldn't be written, and 6 where there was no memory.
#![tactic(auto)]

mod bodies;
mod contents;
mod fault;
mod files;
mod frames;
mod images;
mod nameless;
mod opcodes;
mod packed;
mod parts;
mod patches;
mod shelves;
mod signatures;
mod tables;
mod terms;
mod tokens;
mod trees;
mod values;

use crate::fault::Fault;
use crate::files::answers_of;
use std::env;
use std::process::ExitCode;

fn main(rt: HostRuntime) -> ExitCode {
    let status = match answer_all(&rt) {
        Ok(()) => 0,
        Err(fault) => fault.status(),
    };
    ExitCode::from(status)
}

/// Prints the answers to the lines of the files that the words after the program's name name.
fn answer_all(rt: &HostRuntime) -> Result<(), Fault> {
    let Ok(words) = env::args(rt) else {
        return Err(Fault::Meaningless);
    };
    for word in words.skip(1) {
        let answers = answers_of(rt, word.as_str())?;
        rt.print(answers.as_str()).map_err(|_| Fault::Unwritten)?;
    }
    Ok(())
}

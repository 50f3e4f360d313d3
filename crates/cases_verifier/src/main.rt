//! Sources whose methods are checked: `cases_verifier WORD..` reads the source that each word names and prints the word, and
//! below it each method of the source's class `T` with its failures: where its instruction begins in the code, in bytes, and the
//! rule that it breaks. A word is `FILE`, or `FILE+LIBRARY` where the assembly of a second source is a reference of the first.
//! Behind `<=` may stand how many joins and parents each method may take, and behind a comma how many types its check may add.
//! Behind `all:` a word names a source of which is printed how much it declares, and the number of failures in all its bodies.
//!
//! Where a type is its own ancestor, that is printed in place of the methods. The status is 0 where each word was answered, 1
//! where a source has a fault or is too large, 2 where a word doesn't fit, 3 where a file couldn't be read, 4 where the answers
//! couldn't be written, and 6 where there was no memory.
#![tactic(auto)]

mod answers;
mod checks;
mod fault;
mod most;
mod reading;
mod repeats;

use crate::answers::answer;
use std::env;
use std::process::ExitCode;

fn main(rt: HostRuntime) -> ExitCode {
    ExitCode::from(status(&rt))
}

/// The status for the words after the program's name.
fn status(rt: &HostRuntime) -> u8 {
    let Ok(words) = env::args(rt) else {
        return 2;
    };
    for word in words.skip(1) {
        if let Err(fault) = answer(rt, word.as_str()) {
            let _ = rt.eprintln(fault);
            return fault.status();
        }
    }
    0
}

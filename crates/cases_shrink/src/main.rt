//! Bodies whose branches are made short: `cases_shrink WORD..` prints a line for each word, with the bytes of the code and how
//! many of its branches are short and how many long, and which, where there are at most 28.
//!
//! A word is the body's instructions, parted by commas. `nop` is one instruction and `nop*3` are three; `br>7` branches to
//! instruction 7, counted from 0, and `br>+2` and `br>-2` to the second one behind and before it; `br>+2*3` are three such
//! branches. A switch to instructions 1 and 2 is `switch>1:2`.
//!
//! The status is 0 where each word was answered, 2 where a word doesn't fit, 4 where a line couldn't be written, and 6 where
//! there was no memory.
#![tactic(auto)]

mod answers;
mod bodies;
mod fault;

use crate::answers::answer;
use std::env;
use std::process::ExitCode;

fn main(rt: HostRuntime) -> ExitCode {
    ExitCode::from(status(&rt))
}

/// The status for the words after the program's name.
fn status(rt: &HostRuntime) -> u8 {
    let Ok(words) = env::args(rt) else {
        return 2;
    };
    for word in words.skip(1) {
        if let Err(fault) = answer(rt, word.as_str()) {
            let _ = rt.eprintln(fault);
            return fault.status();
        }
    }
    0
}

//! Images that are looked at: `cases_images FILE..` reads files of lines and prints of each image that they name, or change, the
//! first of the demands I1 to I23 that it fails, with its place and text.
//!
//! `image NAME HEX` names an image by its bytes. `at N HEX` is the image named last with these bytes in place from byte N on,
//! `cut N` the same cut to N bytes. A line that begins with `#` is passed over.
//!
//! The status is 0 where each line was answered, 2 where a line or a word doesn't fit, 3 where a file couldn't be read, 4 where
//! the answers couldn't be written, and 6 where there was no memory.
#![tactic(auto)]

mod answers;
mod bytes;
mod fault;
mod lines;

use crate::lines::answer_file;
use std::env;
use std::process::ExitCode;

fn main(rt: HostRuntime) -> ExitCode {
    ExitCode::from(status(&rt))
}

/// The status for the words after the program's name.
fn status(rt: &HostRuntime) -> u8 {
    let Ok(words) = env::args(rt) else {
        return 2;
    };
    for word in words.skip(1) {
        if let Err(fault) = answer_file(rt, word.as_str()) {
            let _ = rt.eprintln(fault);
            return fault.status();
        }
    }
    0
}

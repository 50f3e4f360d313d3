//! Images that are read: `cases_reader FILE..` reads files of lines and prints of each image that they name, make or change what it
//! reads as, by its weight and its numbers of types, methods and fields, or the first of the demands I1 to I24 that it fails, with
//! its place.
//!
//! `image NAME HEX` names an image by its bytes, `source NAME TEXT` makes that of a source. `at N HEX` is this image with these bytes
//! in place from byte N on, `cut N` the same cut to N bytes; what they read as is the same as what the whole image reads as where
//! both are written as one image. A line that begins with `#` is passed over.
//!
//! The status is 0 where each line was answered, 1 where a source gives no image, 2 where a line or a word doesn't fit, 3 where a
//! file couldn't be read, 4 where the answers couldn't be written, and 6 where there was no memory.
#![tactic(auto)]

mod answers;
mod bytes;
mod counts;
mod fault;
mod lines;
mod written;

use crate::lines::answer_file;
use std::env;
use std::process::ExitCode;

fn main(rt: HostRuntime) -> ExitCode {
    ExitCode::from(status(&rt))
}

/// The status for the words after the program's name.
fn status(rt: &HostRuntime) -> u8 {
    let Ok(words) = env::args(rt) else {
        return 2;
    };
    for word in words.skip(1) {
        if let Err(fault) = answer_file(rt, word.as_str()) {
            let _ = rt.eprintln(fault);
            return fault.status();
        }
    }
    0
}

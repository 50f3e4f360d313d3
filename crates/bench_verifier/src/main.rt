//! How far the bodies of a source are checked, for measurements: `bench_verifier FILE N` reads FILE and goes as far as the
//! assembly that it denotes (1), the world of its types (2), or the check of all its bodies (3), of which it prints the number
//! of failures. The status is 0 where that could be made, 1 where the source has a fault or is too large or a type is its own
//! ancestor, 2 where the words don't fit, 3 where FILE couldn't be read, 4 where the number couldn't be written, and 6 where
//! there was no memory.
#![tactic(auto)]

mod checking;
mod fault;

use crate::checking::{Stage, check_named};
use std::env;
use std::process::ExitCode;

fn main(rt: HostRuntime) -> ExitCode {
    ExitCode::from(status(&rt))
}

/// The status for the words after the program's name.
fn status(rt: &HostRuntime) -> u8 {
    let Ok(words) = env::args(rt) else {
        return 2;
    };
    let mut words = words.skip(1);
    let (Some(name), Some(word), None) = (words.next(), words.next(), words.next()) else {
        return 2;
    };
    let Some(stage) = Stage::numbered(word.as_str()) else {
        return 2;
    };
    match check_named(rt, name.as_str(), stage) {
        Ok(()) => 0,
        Err(fault) => fault.status(),
    }
}

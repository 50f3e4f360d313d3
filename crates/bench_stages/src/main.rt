//! How far a source is read, for measurements: `bench_stages FILE N` reads FILE and goes as far as its tokens (1), their derivation
//! (2), the first rule that the source breaks (3), or the assembly that it denotes (4). The status is 0 where that could be
//! made, 1 where the source has a fault, 2 where the words don't fit, 3 where FILE couldn't be read or is longer than 2^27
//! bytes, and 6 where there was no memory.
#![tactic(auto)]

mod fault;
mod reading;

use crate::fault::StageFault;
use crate::reading::{Stage, read_file, read_source};
use std::env;
use std::process::ExitCode;

fn main(rt: HostRuntime) -> ExitCode {
    ExitCode::from(status(&rt))
}

/// The status for the words after the program's name.
fn status(rt: &HostRuntime) -> u8 {
    let Ok(words) = env::args(rt) else {
        return 2;
    };
    let mut words = words.skip(1);
    let (Some(name), Some(word), None) = (words.next(), words.next(), words.next()) else {
        return 2;
    };
    let Some(stage) = Stage::numbered(word.as_str()) else {
        return 2;
    };
    match read_named(rt, name.as_str(), stage) {
        Ok(()) => 0,
        Err(StageFault::Faulty) => 1,
        Err(StageFault::Unread) => 3,
        Err(StageFault::NoMemory) => 6,
    }
}

/// Reads the source in a file as far as a stage.
fn read_named(rt: &HostRuntime, name: &str, stage: Stage) -> Result<(), StageFault> {
    let source = read_file(rt, name)?;
    read_source(rt.alloc(), source.as_slice(), stage)
}

//! What sources say: `cases_sources WORD..` reads the files that its words name, one after the other, and prints what each source
//! says: the first rule that it breaks, with line and column, or `ok`.
//!
//! `NAME.il` is a source, `NAME.many` the pieces that make one (`many`), and `NAME.numbers` several sources, which differ in
//! their numbers (`numbers`). Behind the word `-derivation` sources are read no further than to their derivations, and behind
//! `-rule` again to all rules; behind `-manifest` or `-contents` that part of the assembly that a source denotes is printed in
//! place of `ok`.
//!
//! The status is 0 where all could be read and printed, 2 where a word or a row has no meaning, 3 where a file couldn't be read or
//! is longer than 2^27 bytes, 4 where the output couldn't be written, and 6 where there was no memory.
#![tactic(auto)]

mod fault;
mod files;
mod many;
mod numbers;
mod outline;
mod reading;
mod report;

use crate::fault::VectorFault;
use crate::files::read_file;
use crate::reading::Shown;
use crate::report::report_of;
use std::env;
use std::process::ExitCode;

fn main(rt: HostRuntime) -> ExitCode {
    let status = match report_all(&rt) {
        Ok(()) => 0,
        Err(fault) => fault.status(),
    };
    ExitCode::from(status)
}

/// Prints what the files say that the words after the program's name name.
fn report_all(rt: &HostRuntime) -> Result<(), VectorFault> {
    let Ok(words) = env::args(rt) else {
        return Err(VectorFault::Meaningless);
    };
    let mut shown = Shown::Rule;
    for word in words.skip(1) {
        match Shown::of_word(word.as_str()) {
            Some(next) => shown = next,
            None => report_file(rt, word.as_str(), shown)?,
        }
    }
    Ok(())
}

/// Prints what one file says.
fn report_file(rt: &HostRuntime, name: &str, shown: Shown) -> Result<(), VectorFault> {
    let file = read_file(rt, name)?;
    let report = report_of(rt.alloc(), name, file.as_slice(), shown)?;
    rt.print(report.as_str())
        .map_err(|_| VectorFault::Unwritten)
}

//! Listings of sources: `cases_listing WORD..` reads the files that its words name, one after the other, prints the listing of each
//! that denotes an assembly, reads that listing, and lists it again.
//!
//! For each file a line says `same` where both listings are equal, `differs` where they aren't, `unread` where the listing isn't a
//! source, and the rule that is broken where the file has a fault. Behind the word `-print` the listing itself is printed.
#![tactic(auto)]

mod fault;
mod files;

use crate::fault::VectorFault;
use crate::files::read_file;
use il_lists::Text;
use listing_printer::print;
use source_assembly::{ReadFault, SourceFault, assembly_of};
use std::alloc::Global;
use std::env;
use std::process::ExitCode;

/// How many bytes a source may have.
pub(crate) const LIMIT: usize = 0x800_0000;

fn main(rt: HostRuntime) -> ExitCode {
    let status = match list_all(&rt) {
        Ok(()) => 0,
        Err(fault) => fault.status(),
    };
    ExitCode::from(status)
}

/// Lists the files that the words after the program's name name.
fn list_all(rt: &HostRuntime) -> Result<(), VectorFault> {
    let Ok(words) = env::args(rt) else {
        return Err(VectorFault::Meaningless);
    };
    let mut shown = false;
    for word in words.skip(1) {
        if word.as_str() == "-print" {
            shown = true;
        } else {
            list_file(rt, word.as_str(), shown)?;
        }
    }
    Ok(())
}

fn list_file(rt: &HostRuntime, name: &str, shown: bool) -> Result<(), VectorFault> {
    let file = read_file(rt, name)?;
    let alloc = rt.alloc();
    match listing_of(alloc, file.as_slice())? {
        Listed::Fault(fault) => say(rt, name, fault),
        Listed::Text(first) => {
            if shown {
                return rt.print(first.as_str()).map_err(|_| VectorFault::Unwritten);
            }
            match listing_of(alloc, first.as_bytes())? {
                Listed::Fault(_) => say(rt, name, "unread"),
                Listed::Text(second) => {
                    if first.as_bytes() == second.as_bytes() {
                        say(rt, name, "same")
                    } else {
                        say(rt, name, "differs")
                    }
                }
            }
        }
    }
}

fn say(rt: &HostRuntime, name: &str, text: &str) -> Result<(), VectorFault> {
    let line = format!(in rt.alloc(); "{name}: {text}\n")?;
    rt.print(line.as_str()).map_err(|_| VectorFault::Unwritten)
}

/// What comes of a source.
#[derive(Drop)]
enum Listed {
    Text(Text),
    Fault(&'static str),
}

fn listing_of(alloc: Global, source: &[u8]) -> Result<Listed, VectorFault> {
    if source.len() > LIMIT {
        return Ok(Listed::Fault("long"));
    }
    match assembly_of(alloc, source) {
        Ok(assembly) => {
            let text = print(alloc, &assembly)?;
            Ok(Listed::Text(text))
        }
        Err(ReadFault::Faulty(SourceFault::Lexical { .. })) => Ok(Listed::Fault("broken L")),
        Err(ReadFault::Faulty(SourceFault::Syntax { .. })) => Ok(Listed::Fault("broken S")),
        Err(ReadFault::Faulty(SourceFault::Named { .. })) => Ok(Listed::Fault("broken")),
        Err(ReadFault::NoMemory) => Err(VectorFault::NoMemory),
    }
}

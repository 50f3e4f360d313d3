//! A shelf and a console in memory, and a shelf of real files.

use crate::fault::Fault;
use crate::files::push_line;
use crate::values::{number32, two};
use il_base::{Console, DiskShelf, Failed, MemConsole, MemShelf, Shelf};
use std::alloc::Global;

/// A shelf and a console.
#[derive(Drop)]
struct Stores {
    shelf: MemShelf,
    console: MemConsole,
}

fn push_count(out: &mut String, answer: Result<usize, Failed>) -> Result<(), Fault> {
    match answer {
        Ok(count) => write!(out, "{count}")?,
        Err(_) => out.push_str("failed")?,
    }
    Ok(())
}

fn push_bytes(out: &mut String, bytes: &[u8]) -> Result<(), Fault> {
    out.push('"')?;
    for byte in bytes {
        out.push(char::from(*byte))?;
    }
    out.push('"')?;
    Ok(())
}

/// A call of any shelf: `start NAME`, `append NAME TEXT`, or `read NAME PLACE` for four bytes.
fn push_call<S: Shelf>(
    shelf: &mut S,
    out: &mut String,
    call: &str,
    rest: &str,
) -> Result<(), Fault> {
    if call == "start" {
        return push_count(out, shelf.start(rest).map(|_| 0));
    }
    let (name, rest) = two(rest)?;
    match call {
        "append" => push_count(out, shelf.append(name, rest.as_bytes())),
        "read" => push_read(shelf, out, name, number32(rest)?),
        _ => Err(Fault::Meaningless),
    }
}

/// What a read of four bytes gives.
fn push_read<S: Shelf>(shelf: &mut S, out: &mut String, name: &str, at: u32) -> Result<(), Fault> {
    let mut into = [0u8; 4];
    match shelf.read(name, u64::from(at), &mut into) {
        Ok(count) => {
            write!(out, "{count}, ")?;
            push_bytes(out, into.get(..count).unwrap_or(&into))
        }
        Err(failed) => push_count(out, Err(failed)),
    }
}

/// The answers to lines, each a call of the shelf of real files.
pub fn push_disk(rt: &HostRuntime, out: &mut String, text: &str) -> Result<(), Fault> {
    let mut shelf = DiskShelf::new(rt, rt.alloc());
    for line in text.lines() {
        if push_line(out, line)? {
            let (call, rest) = two(line)?;
            push_call(&mut shelf, out, call, rest)?;
            out.push('\n')?;
        }
    }
    Ok(())
}

/// The answers to lines, each a call.
pub fn push_answers(alloc: Global, out: &mut String, text: &str) -> Result<(), Fault> {
    let mut told = Stores::new(alloc);
    told.push_lines(alloc, out, text)
}

impl Stores {
    /// A shelf without files, and a console that has taken nothing.
    fn new(alloc: Global) -> Stores {
        Stores {
            shelf: MemShelf::new(alloc),
            console: MemConsole::new(alloc),
        }
    }

    fn push_lines(&mut self, alloc: Global, out: &mut String, text: &str) -> Result<(), Fault> {
        for line in text.lines() {
            if push_line(out, line)? {
                self.push_answer(alloc, out, line)?;
                out.push('\n')?;
            }
        }
        Ok(())
    }

    fn push_answer(&mut self, alloc: Global, out: &mut String, line: &str) -> Result<(), Fault> {
        match line.split_once(' ') {
            Some(("console", rest)) => self.push_told(out, rest),
            Some((call, rest)) => self.push_called(out, call, rest),
            None => self.push_counts(alloc, out, line),
        }
    }

    /// `new` for new ones, or `counts` for the counts of failed calls.
    fn push_counts(&mut self, alloc: Global, out: &mut String, word: &str) -> Result<(), Fault> {
        if word == "new" {
            *self = Stores::new(alloc);
            out.push_str("ok")?;
            return Ok(());
        }
        if word != "counts" {
            return Err(Fault::Meaningless);
        }
        let (reads, writes) = (self.shelf.failed_reads(), self.shelf.failed_writes());
        let failed = self.console.failed();
        write!(
            out,
            "{reads} reads, {writes} writes, {failed} of the console"
        )?;
        Ok(())
    }

    /// A call of the shelf.
    fn push_called(&mut self, out: &mut String, call: &str, rest: &str) -> Result<(), Fault> {
        match call {
            "put" | "room" => self.push_named(out, call, rest),
            "start" | "append" | "read" => push_call(&mut self.shelf, out, call, rest),
            "file" => match self.shelf.file(rest) {
                Some(bytes) => push_bytes(out, bytes),
                None => {
                    out.push_str("none")?;
                    Ok(())
                }
            },
            "fail_at" => {
                self.shelf.fail_at(u64::from(number32(rest)?))?;
                push_count(out, Ok(0))
            }
            "at_most" => {
                self.shelf.at_most(number32(rest)? as usize);
                push_count(out, Ok(0))
            }
            _ => Err(Fault::Meaningless),
        }
    }

    /// A call with which a file in memory is made.
    fn push_named(&mut self, out: &mut String, call: &str, rest: &str) -> Result<(), Fault> {
        let (name, rest) = two(rest)?;
        if call == "put" {
            self.shelf.put(name, rest.as_bytes())?;
        } else {
            self.shelf.room(name, number32(rest)? as usize)?;
        }
        push_count(out, Ok(0))
    }

    /// A call of the console.
    fn push_told(&mut self, out: &mut String, rest: &str) -> Result<(), Fault> {
        match rest.split_once(' ') {
            Some(("out", piece)) => push_count(out, self.console.out(piece.as_bytes())),
            Some(("err", piece)) => push_count(out, self.console.err(piece.as_bytes())),
            Some(("room", count)) => {
                self.console.room(number32(count)? as usize)?;
                push_count(out, Ok(0))
            }
            Some(("fail_at", call)) => {
                self.console.fail_at(u64::from(number32(call)?))?;
                push_count(out, Ok(0))
            }
            Some(("at_most", count)) => {
                self.console.at_most(number32(count)? as usize);
                push_count(out, Ok(0))
            }
            None if rest == "taken" => {
                push_bytes(out, self.console.out_bytes())?;
                out.push(' ')?;
                push_bytes(out, self.console.err_bytes())
            }
            _ => Err(Fault::Meaningless),
        }
    }
}

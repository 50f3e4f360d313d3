//! Trees of sources, and what becomes of them by changes: whether they are well formed, what they weigh, and the order of types.

use crate::fault::Fault;
use crate::files::push_line;
use crate::patches::patch;
use assembly_tree::{Assembly, Field, weight, well_formed};
use il_lists::{Copies, NoMemory};
use source_assembly::{ReadFault, assembly_of};
use std::alloc::{AllocError, Global};
use std::cmp::Ordering;
use type_terms::{SigType, compare_terms, fits};

/// The longest source.
const LONGEST: usize = 1_000_000;

/// What begins each source, and the weight of its assembly.
#[derive(Drop)]
struct Trees {
    begins: String,
    weight: u64,
}

/// The assembly of a source.
fn read(alloc: Global, source: &str) -> Result<Assembly, Fault> {
    let source = source.as_bytes();
    if source.len() > LONGEST {
        return Err(Fault::Meaningless);
    }
    match assembly_of(alloc, source) {
        Ok(assembly) => Ok(assembly),
        Err(ReadFault::NoMemory) => Err(Fault::NoMemory),
        Err(ReadFault::Faulty(_)) => Err(Fault::Meaningless),
    }
}

/// What a copy weighs.
fn copied_weight(alloc: Global, a: &Assembly) -> Result<u64, NoMemory> {
    let copied = a.copy(alloc)?;
    Ok(weight(&copied))
}

fn weight_of(alloc: Global, source: &str) -> Result<u64, Fault> {
    let a = read(alloc, source)?;
    Ok(weight(&a))
}

/// Makes the changes that stand behind a source, each behind ` ~ `.
fn patch_all(alloc: Global, a: &mut Assembly, patches: &str) -> Result<(), Fault> {
    for change in patches.split(" ~ ") {
        if !change.is_empty() {
            patch(alloc, a, change)?;
        }
    }
    Ok(())
}

/// Whether each type rises above those before it, a copy of it ties with it, and each fits its depth.
fn rise(alloc: Global, a: &Assembly) -> Result<bool, NoMemory> {
    for (i, field) in a.fields.as_slice().iter().enumerate() {
        if !fits(&field.of) || !stands_at(alloc, &field.of, a.fields.as_slice(), i)? {
            return Ok(false);
        }
    }
    Ok(true)
}

/// Whether a type is above those of the fields before a place, ties with that of the one there, and is below those behind it, by their
/// copies.
fn stands_at(
    alloc: Global,
    of: &SigType,
    fields: &[Field],
    place: usize,
) -> Result<bool, NoMemory> {
    for (k, other) in fields.iter().enumerate() {
        if compared(alloc, of, &other.of)? != place.cmp(&k) {
            return Ok(false);
        }
    }
    Ok(true)
}

/// How a type compares with a copy of another.
fn compared(alloc: Global, of: &SigType, other: &SigType) -> Result<Ordering, NoMemory> {
    let copied = other.copy(alloc)?;
    Ok(compare_terms(of, &copied))
}

/// The answers to lines. `begin TEXT` begins each source from there on; `formed TEXT ~ CHANGE ..` asks whether the tree of a source is
/// well formed after some changes, `weighs TEXT ~ CHANGE ..` how much more a copy of it weighs than what each source begins with, and
/// `rises TEXT` whether the types of its fields rise.
pub fn push_answers(alloc: Global, out: &mut String, text: &str) -> Result<(), Fault> {
    let mut told = Trees::new(alloc);
    told.push_lines(alloc, out, text)
}

impl Trees {
    /// Sources that begin with nothing.
    fn new(alloc: Global) -> Trees {
        Trees {
            begins: String::new(alloc),
            weight: 0,
        }
    }

    fn push_lines(&mut self, alloc: Global, out: &mut String, text: &str) -> Result<(), Fault> {
        for line in text.lines() {
            if push_line(out, line)? {
                self.push_answer(alloc, out, line)?;
                out.push('\n')?;
            }
        }
        Ok(())
    }

    fn push_answer(&mut self, alloc: Global, out: &mut String, line: &str) -> Result<(), Fault> {
        match line.split_once(' ') {
            Some(("begin", text)) => self.push_begun(alloc, out, text),
            Some((asked, text)) => {
                let (source, patches) = match text.split_once("~ ") {
                    Some(both) => both,
                    None => (text, ""),
                };
                let mut a = self.read(alloc, source)?;
                self.push_patched(alloc, out, asked, patches, &mut a)
            }
            None => Err(Fault::Meaningless),
        }
    }

    fn push_begun(&mut self, alloc: Global, out: &mut String, text: &str) -> Result<(), Fault> {
        self.begins = String::from_str(alloc, text)?;
        let begun = weight_of(alloc, text)?;
        self.weight = begun;
        write!(out, "{begun}")?;
        Ok(())
    }

    fn push_patched(
        &self,
        alloc: Global,
        out: &mut String,
        asked: &str,
        patches: &str,
        a: &mut Assembly,
    ) -> Result<(), Fault> {
        patch_all(alloc, a, patches)?;
        self.push_asked(alloc, out, asked, a)
    }

    fn read(&self, alloc: Global, text: &str) -> Result<Assembly, Fault> {
        let source = joined(alloc, self.begins.as_str(), text)?;
        read(alloc, source.as_str())
    }

    fn push_asked(
        &self,
        alloc: Global,
        out: &mut String,
        asked: &str,
        a: &Assembly,
    ) -> Result<(), Fault> {
        match asked {
            "formed" => out.push_str(if well_formed(a) { "yes" } else { "no" })?,
            "weighs" => {
                let more = copied_weight(alloc, a)?.saturating_sub(self.weight);
                write!(out, "{more}")?;
            }
            "rises" => out.push_str(if rise(alloc, a)? { "yes" } else { "no" })?,
            _ => return Err(Fault::Meaningless),
        }
        Ok(())
    }
}

fn joined(alloc: Global, begins: &str, text: &str) -> Result<String, AllocError> {
    let mut source = String::from_str(alloc, begins)?;
    source.push(' ')?;
    source.push_str(text)?;
    Ok(source)
}

//! What is printed of a file.

use crate::fault::VectorFault;
use crate::many::source_of;
use crate::numbers::push_numbers;
use crate::outline::{push_contents, push_manifest};
use crate::reading::{Reading, Shown, read};
use assembly_tree::Assembly;
use std::alloc::Global;
use std::str;

/// How a file tells its sources.
#[derive(Debug, Clone, Copy, PartialEq, Eq, Drop)]
enum Form {
    /// It is one.
    Source,
    /// By the pieces of one.
    Many,
    /// By what differs in several.
    Numbers,
}

impl Form {
    /// The form of a file with this name.
    fn of(name: &str) -> Result<Form, VectorFault> {
        if name.ends_with(".il") {
            Ok(Form::Source)
        } else if name.ends_with(".many") {
            Ok(Form::Many)
        } else if name.ends_with(".numbers") {
            Ok(Form::Numbers)
        } else {
            Err(VectorFault::Meaningless)
        }
    }
}

/// What the sources of a file say.
///
/// # Errors
///
/// The file's name or one of its rows has no meaning, a source is too long, or there was no memory.
pub fn report_of(
    alloc: Global,
    name: &str,
    file: &[u8],
    shown: Shown,
) -> Result<String, VectorFault> {
    let mut out = String::new(alloc);
    match Form::of(name)? {
        Form::Source => push_report(alloc, &mut out, name, file, shown)?,
        Form::Many => push_made(alloc, &mut out, name, text_of(file)?, shown)?,
        Form::Numbers => push_numbers(alloc, &mut out, name, text_of(file)?, shown)?,
    }
    Ok(out)
}

fn text_of(file: &[u8]) -> Result<&str, VectorFault> {
    str::from_utf8(file).map_err(|_| VectorFault::Meaningless)
}

/// What the source says that rows make.
fn push_made(
    alloc: Global,
    out: &mut String,
    name: &str,
    rows: &str,
    shown: Shown,
) -> Result<(), VectorFault> {
    let source = source_of(alloc, rows)?;
    push_report(alloc, out, name, source.as_bytes(), shown)
}

/// A line for a source: the rule that it breaks, or `ok`; or the lines for a part of its assembly.
pub fn push_report(
    alloc: Global,
    out: &mut String,
    name: &str,
    source: &[u8],
    shown: Shown,
) -> Result<(), VectorFault> {
    match read(alloc, source, shown)? {
        Reading::Broken(broken) => writeln!(out, "{name}: {broken}")?,
        Reading::Derived => writeln!(out, "{name}: ok")?,
        Reading::Assembly(assembly) => push_assembly(out, name, &assembly, shown)?,
    }
    Ok(())
}

/// What is shown of a source that denotes an assembly.
fn push_assembly(
    out: &mut String,
    name: &str,
    assembly: &Assembly,
    shown: Shown,
) -> Result<(), VectorFault> {
    match shown {
        Shown::Derivation | Shown::Rule => writeln!(out, "{name}: ok")?,
        Shown::Manifest => {
            writeln!(out, "{name}:")?;
            push_manifest(out, assembly)?;
        }
        Shown::Contents => {
            writeln!(out, "{name}:")?;
            push_contents(out, assembly)?;
        }
    }
    Ok(())
}

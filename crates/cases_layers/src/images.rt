//! Images of sources, looked at by their tables, their heaps and their bytes.

ghost use Rattle.std.specs.Prelude.{◌≤◌, ◌^◌, length, IfOk, IsTrue};
ghost use Rattle.assembly_tree.specs.WellFormed.{is_well_formed};

use crate::fault::Fault;
use crate::files::push_line;
use crate::values::{bytes_of, number8, number32, two};
use assembly_tree::Assembly;
use il_base::Bytes;
use image_writer::{WriteFault, write};
use metadata_tables::{TableView, columns};
use pe_layout::{Kind, open};
use source_assembly::{ReadFault, assembly_of};
use std::alloc::{AllocError, Global};

/// The longest source.
const LONGEST: usize = 0x800_0000;

/// The identifier of each image's module.
const ID: [u8; 16] = [0x5A; 16];

/// By how much the RVAs of the first section are above its places in the file, where file alignment is 0x200 (II.25.3).
const BEFORE: usize = 0x1E00;

/// A source, and the image that was made of it last.
#[derive(Drop)]
struct Made {
    source: String,
    image: Bytes,
}

/// Where these bytes first stand.
fn place_of(bytes: &[u8], wanted: &[u8]) -> Option<usize> {
    let first = wanted.first()?;
    for (k, byte) in bytes.iter().enumerate() {
        if byte == first && starts_at(bytes, k, wanted) {
            return Some(k);
        }
    }
    None
}

fn starts_at(bytes: &[u8], k: usize, wanted: &[u8]) -> bool {
    bytes.get(k..).is_some_and(|rest| rest.starts_with(wanted))
}

/// Four bytes as a number, the least first.
fn number_at(bytes: &[u8], at: usize) -> Option<usize> {
    match bytes.get(at..) {
        Some([a, b, c, d, ..]) => Some(u32::from_le_bytes([*a, *b, *c, *d]) as usize),
        _ => None,
    }
}

/// The metadata, which the CLI header leads to (II.25.3.3).
fn metadata(image: &[u8]) -> Result<&[u8], Fault> {
    let Ok(view) = open(image) else {
        return Err(Fault::Meaningless);
    };
    let Some(rva) = number_at(view.cli_header(), 8) else {
        return Err(Fault::Meaningless);
    };
    match image.get(rva.saturating_sub(BEFORE)..) {
        Some(root) if root.starts_with(b"BSJB") => Ok(root),
        _ => Err(Fault::Meaningless),
    }
}

/// The stream with this name, which ends in zero bytes, by the headers of the metadata's streams (II.24.2.2).
fn stream<'a>(image: &'a [u8], name: &[u8]) -> Option<&'a [u8]> {
    let root = metadata(image).ok()?;
    let name = place_of(root, name)?;
    let at = number_at(root, name.checked_sub(8)?)?;
    let size = number_at(root, name.checked_sub(4)?)?;
    root.get(at..)?.get(..size)
}

/// The stream of tables (II.24.2.6).
fn tables(image: &[u8]) -> Result<TableView<'_>, Fault> {
    let Some(stream) = stream(image, b"#~\0\0") else {
        return Err(Fault::Meaningless);
    };
    match TableView::open(stream) {
        Ok(view) => Ok(view),
        Err(_) => Err(Fault::Meaningless),
    }
}

/// A cell, or None where there is no such row or column.
fn cell(view: &TableView<'_>, table: u8, row: u32, column: u8) -> Option<u32> {
    if row == 0 || row > view.rows(table) || usize::from(column) >= columns(table).len() {
        return None;
    }
    Some(view.cell(table, row, column))
}

/// The cell that `TABLE ROW COLUMN` names, where `last` is the last row.
fn cell_of(image: &[u8], rest: &str) -> Result<u32, Fault> {
    let (table, rest) = two(rest)?;
    let (row, column) = two(rest)?;
    let view = tables(image)?;
    let table = number8(table)?;
    let row = match row {
        "last" => view.rows(table),
        _ => number32(row)?,
    };
    match cell(&view, table, row, number8(column)?) {
        Some(value) => Ok(value),
        None => Err(Fault::Meaningless),
    }
}

/// Adds the text at an index of the heap of texts (II.24.2.3).
fn push_text(out: &mut String, image: &[u8], index: u32) -> Result<(), Fault> {
    let rest = match stream(image, b"#Strings\0") {
        Some(texts) => texts.get(index as usize..).unwrap_or(&[]),
        None => &[],
    };
    out.push('"')?;
    for byte in rest {
        if *byte == 0 {
            break;
        }
        out.push(char::from(*byte))?;
    }
    out.push('"')?;
    Ok(())
}

fn push_seen(out: &mut String, image: &[u8], asked: &str, rest: &str) -> Result<(), Fault> {
    match asked {
        "rows" => {
            let rows = tables(image)?.rows(number8(rest)?);
            write!(out, "{rows}")?;
            Ok(())
        }
        "cell" => {
            let value = cell_of(image, rest)?;
            write!(out, "{value}")?;
            Ok(())
        }
        "text" => push_text(out, image, cell_of(image, rest)?),
        _ => Err(Fault::Meaningless),
    }
}

/// The answers to lines. `COUNT PIECE` adds a piece to the source, so many times, each time with a line end, or without one where a
/// backslash ends the line; for the first `#` in the piece stands the number of its copy, from 0. `make exe` and `make dll` assemble
/// the source, and end it. Of the image that was made last, `rows TABLE` asks for the number of rows, `cell TABLE ROW COLUMN` for a
/// cell, `text TABLE ROW COLUMN` for the text whose index stands in a cell, and `has BYTES` whether these bytes stand in it.
pub fn push_answers(alloc: Global, out: &mut String, text: &str) -> Result<(), Fault> {
    let mut told = Made::new(alloc);
    told.push_lines(alloc, out, text)
}

impl Made {
    /// No source.
    fn new(alloc: Global) -> Made {
        Made {
            source: String::new(alloc),
            image: Bytes::new(alloc),
        }
    }

    fn push_lines(&mut self, alloc: Global, out: &mut String, text: &str) -> Result<(), Fault> {
        for line in text.lines() {
            match line.split_once(' ') {
                Some((count, piece)) if is_number(count) => {
                    out.push_str(line)?;
                    push_copies(&mut self.source, number32(count)?, piece)?;
                    out.push('\n')?;
                }
                _ => {
                    if push_line(out, line)? {
                        self.push_answer(alloc, out, line)?;
                        out.push('\n')?;
                    }
                }
            }
        }
        Ok(())
    }

    fn push_answer(&mut self, alloc: Global, out: &mut String, line: &str) -> Result<(), Fault> {
        match two(line)? {
            ("make", "exe") => self.push_made(alloc, out, Kind::Exe),
            ("make", "dll") => self.push_made(alloc, out, Kind::Dll),
            ("has", bytes) => {
                let wanted = bytes_of(alloc, bytes)?;
                let has = place_of(self.image.as_slice(), wanted.as_slice()).is_some();
                out.push_str(if has { "yes" } else { "no" })?;
                Ok(())
            }
            (asked, rest) => push_seen(out, self.image.as_slice(), asked, rest),
        }
    }

    fn push_made(&mut self, alloc: Global, out: &mut String, kind: Kind) -> Result<(), Fault> {
        match image_of(alloc, self.source.as_bytes(), kind)? {
            Some(image) => {
                self.image = image;
                out.push_str("made")?;
            }
            None => out.push_str("too large")?,
        }
        self.source = String::new(alloc);
        Ok(())
    }
}

fn is_number(word: &str) -> bool {
    word.parse::<u32>().is_ok()
}

/// The image of a source, or None where its assembly is too large.
fn image_of(alloc: Global, source: &[u8], kind: Kind) -> Result<Option<Bytes>, Fault> {
    if source.len() > LONGEST {
        return Err(Fault::Meaningless);
    }
    let assembly = assembled(alloc, source)?;
    written(alloc, &assembly, kind)
}

fn assembled(alloc: Global, source: &[u8]) -> Result<Assembly, Fault>
    requires { length source.now ≤ 2 ^ 27 }
    ensures { IfOk result (λ a. IsTrue (is_well_formed a)) }
{
    match assembly_of(alloc, source) {
        Ok(assembly) => Ok(assembly),
        Err(ReadFault::NoMemory) => Err(Fault::NoMemory),
        Err(ReadFault::Faulty(_)) => Err(Fault::Meaningless),
    }
}

fn written(alloc: Global, assembly: &Assembly, kind: Kind) -> Result<Option<Bytes>, Fault>
    requires { IsTrue (is_well_formed assembly.now) }
{
    match write(alloc, assembly, ID, kind) {
        Ok(image) => Ok(Some(image)),
        Err(WriteFault::NoMemory) => Err(Fault::NoMemory),
        Err(_) => Ok(None),
    }
}

fn push_copies(source: &mut String, count: u32, piece: &str) -> Result<(), AllocError> {
    let (piece, end) = match piece.strip_suffix('\\') {
        Some(open) => (open, ""),
        None => (piece, "\n"),
    };
    match piece.split_once('#') {
        Some((before, after)) => {
            for number in 0..count {
                write!(source, "{before}{number}{after}{end}")?;
            }
        }
        None => {
            for _ in 0..count {
                source.push_str(piece)?;
                source.push_str(end)?;
            }
        }
    }
    Ok(())
}

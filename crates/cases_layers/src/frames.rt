//! The frame of an image: how changed ones open, and what can be read of them (ECMA-335 II.25).

use crate::fault::Fault;
use crate::values::{bytes_of, number32, push_hex, two};
use il_lists::{Bytes, NoMemory};
use pe_layout::{Kind, ManifestNumbers, Parts, PeFault, PeView, code_rva, open, write};
use std::alloc::Global;

const NUMBERS: ManifestNumbers = ManifestNumbers {
    image_base: 0x40_0000,
    file_alignment: 0x200,
    stack_reserve: 0x10_0000,
    subsystem: 3,
    cor_flags: 1,
};

/// A program of one body of two bytes, and of metadata of one byte.
fn program(alloc: Global) -> Result<Bytes, NoMemory> {
    let parts = Parts::new(alloc, b"\x06\x2A", b"B", 0x0600_0001, &NUMBERS, Kind::Exe)?;
    write(alloc, &parts)
}

/// The answer for that program as it is (`written`), cut to a length (`cut LENGTH`), or with other bytes from a place on: how it opens
/// (`open PLACE BYTES`), or how much can be read from an RVA on (`read RVA PLACE BYTES`).
pub fn push_answer(alloc: Global, out: &mut String, line: &str) -> Result<(), Fault> {
    let image = program(alloc)?;
    push_asked(alloc, out, image.as_slice(), line)
}

fn push_asked(alloc: Global, out: &mut String, image: &[u8], line: &str) -> Result<(), Fault> {
    if line == "written" {
        return push_written(out, image);
    }
    match two(line)? {
        ("cut", length) => push_cut(out, image, number32(length)?),
        ("open", rest) => {
            let image = changed(alloc, image, rest)?;
            push_opened(out, image.as_slice())
        }
        ("read", rest) => {
            let (rva, rest) = two(rest)?;
            let rva = number32(rva)?;
            let image = changed(alloc, image, rest)?;
            push_read(out, image.as_slice(), rva)
        }
        _ => Err(Fault::Meaningless),
    }
}

/// The image with other bytes from a place on: `PLACE BYTES`.
fn changed(alloc: Global, image: &[u8], rest: &str) -> Result<Bytes, Fault> {
    let (place, bytes) = two(rest)?;
    let place = number32(place)? as usize;
    let bytes = bytes_of(alloc, bytes)?;
    let mut out = Bytes::from_slice(alloc, image)?;
    for (k, byte) in bytes.as_slice().iter().enumerate() {
        let at = place.saturating_add(k);
        if at < out.len() {
            out.set(at, *byte);
        }
    }
    Ok(out)
}

fn push_fault(out: &mut String, fault: PeFault) -> Result<(), Fault> {
    write!(out, "I{} at {}", fault.rule, fault.at)?;
    Ok(())
}

fn push_opened(out: &mut String, image: &[u8]) -> Result<(), Fault> {
    match open(image) {
        Ok(_) => out.push_str("ok")?,
        Err(fault) => push_fault(out, fault)?,
    }
    Ok(())
}

fn push_cut(out: &mut String, image: &[u8], length: u32) -> Result<(), Fault> {
    match image.get(..length as usize) {
        Some(image) => push_opened(out, image),
        None => Err(Fault::Meaningless),
    }
}

fn push_written(out: &mut String, image: &[u8]) -> Result<(), Fault> {
    match open(image) {
        Ok(view) => push_numbers(out, image.len(), &view),
        Err(fault) => push_fault(out, fault),
    }
}

/// The numbers of an image, and the first eight bytes of its code.
fn push_numbers(out: &mut String, length: usize, view: &PeView<'_>) -> Result<(), Fault> {
    let numbers = view.numbers();
    let header = view.cli_header().len();
    write!(
        out,
        "{length} bytes, base {:x}, alignment {:x}, stack {:x}, subsystem {}, flags {}, header {header}",
        numbers.image_base,
        numbers.file_alignment,
        numbers.stack_reserve,
        numbers.subsystem,
        numbers.cor_flags
    )?;
    let code = view.at_rva(code_rva()).unwrap_or(&[]);
    out.push_str(", code ")?;
    push_hex(out, code.get(..8).unwrap_or(code))?;
    Ok(())
}

fn push_read(out: &mut String, image: &[u8], rva: u32) -> Result<(), Fault> {
    let view = match open(image) {
        Ok(view) => view,
        Err(fault) => return push_fault(out, fault),
    };
    match view.at_rva(rva) {
        Some(bytes) => write!(out, "{} bytes", bytes.len())?,
        None => out.push_str("nothing")?,
    }
    Ok(())
}

//! Packed numbers, both ways (ECMA-335 II.23.2).

use crate::fault::Fault;
use crate::values::{bytes_of, number32, push_hex, two};
use il_base::{Bytes, push_packed, push_packed_signed, read_packed, read_packed_signed};
use std::alloc::Global;

/// The spelling of `number N` or `signed N`, or what stands at a place of bytes: `at PLACE BYTES` or `signed_at PLACE BYTES`.
pub fn push_answer(alloc: Global, out: &mut String, line: &str) -> Result<(), Fault> {
    match two(line)? {
        ("number", word) => push_number(alloc, out, number32(word)?),
        ("signed", word) => match word.parse::<i32>() {
            Ok(number) => push_signed(alloc, out, number),
            Err(_) => Err(Fault::Meaningless),
        },
        ("at", rest) => push_read(alloc, out, rest, false),
        ("signed_at", rest) => push_read(alloc, out, rest, true),
        _ => Err(Fault::Meaningless),
    }
}

fn push_number(alloc: Global, out: &mut String, number: u32) -> Result<(), Fault> {
    if number > 0x1FFF_FFFF {
        return Err(Fault::Meaningless);
    }
    let mut bytes = Bytes::new(alloc);
    push_packed(&mut bytes, number)?;
    push_hex(out, bytes.as_slice())?;
    Ok(())
}

fn push_signed(alloc: Global, out: &mut String, number: i32) -> Result<(), Fault> {
    if number < -0x1000_0000 || number > 0x0FFF_FFFF {
        return Err(Fault::Meaningless);
    }
    let mut bytes = Bytes::new(alloc);
    push_packed_signed(&mut bytes, number)?;
    push_hex(out, bytes.as_slice())?;
    Ok(())
}

/// The number at a place, and how many bytes it has.
fn push_read(alloc: Global, out: &mut String, rest: &str, signed: bool) -> Result<(), Fault> {
    let (place, bytes) = two(rest)?;
    let place = number32(place)? as usize;
    let bytes = bytes_of(alloc, bytes)?;
    if signed {
        match read_packed_signed(bytes.as_slice(), place) {
            Some((number, size)) => write!(out, "{number} in {size}")?,
            None => out.push_str("none")?,
        }
    } else {
        match read_packed(bytes.as_slice(), place) {
            Some((number, size)) => write!(out, "{number} in {size}")?,
            None => out.push_str("none")?,
        }
    }
    Ok(())
}

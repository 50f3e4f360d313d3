//! Bytes written in hexadecimal, and changes of bytes.

use crate::fault::Fault;
use il_base::Bytes;
use std::alloc::Global;

/// The value of a hexadecimal digit.
fn digit(byte: u8) -> Option<u8> {
    match byte {
        b'0'..=b'9' => Some(byte.wrapping_sub(b'0')),
        b'a'..=b'f' => Some(byte.wrapping_sub(b'a').wrapping_add(10)),
        _ => None,
    }
}

/// The bytes that a line of hexadecimal digits spells.
pub fn bytes_of(alloc: Global, text: &str) -> Result<Bytes, Fault> {
    let mut bytes = Bytes::new(alloc);
    let mut high = None;
    for byte in text.as_bytes() {
        let Some(low) = digit(*byte) else {
            return Err(Fault::Line);
        };
        match high {
            None => high = Some(low),
            Some(first) => {
                bytes.push(first.wrapping_mul(16).wrapping_add(low))?;
                high = None;
            }
        }
    }
    if high.is_some() {
        return Err(Fault::Line);
    }
    Ok(bytes)
}

/// The bytes that a line makes of others: `at N HEX` with these in place from byte N on, `cut N` the first N of them.
pub fn changed(alloc: Global, bytes: &[u8], line: &str) -> Result<Bytes, Fault> {
    if let Some(count) = line.strip_prefix("cut ") {
        let length = number(count)?;
        let Some(front) = bytes.get(..length) else {
            return Err(Fault::Line);
        };
        return Ok(Bytes::from_slice(alloc, front)?);
    }
    let Some(change) = line.strip_prefix("at ") else {
        return Err(Fault::Line);
    };
    let Some((place, digits)) = change.split_once(' ') else {
        return Err(Fault::Line);
    };
    let others = bytes_of(alloc, digits)?;
    replaced(alloc, bytes, number(place)?, others.as_slice())
}

/// The number that a text spells.
fn number(text: &str) -> Result<usize, Fault> {
    match text.parse::<u32>() {
        Ok(number) => Ok(number as usize),
        Err(_) => Err(Fault::Line),
    }
}

/// The bytes with others in place from a byte on.
fn replaced(alloc: Global, bytes: &[u8], at: usize, others: &[u8]) -> Result<Bytes, Fault> {
    let mut changed = Bytes::from_slice(alloc, bytes)?;
    for (k, byte) in others.iter().enumerate() {
        let place = at.saturating_add(k);
        if changed.len() <= place {
            return Err(Fault::Line);
        }
        changed.set(place, *byte);
    }
    Ok(changed)
}

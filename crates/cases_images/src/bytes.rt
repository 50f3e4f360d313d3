//! Bytes written in hexadecimal, and changes of bytes.

use crate::fault::Fault;
use il_base::Bytes;
use std::alloc::Global;

/// The value of a hexadecimal digit.
fn digit(byte: u8) -> Option<u8> {
    match byte {
        b'0'..=b'9' => Some(byte.wrapping_sub(b'0')),
        b'a'..=b'f' => Some(byte.wrapping_sub(b'a').wrapping_add(10)),
        _ => None,
    }
}

/// The bytes that a line of hexadecimal digits spells.
pub fn bytes_of(alloc: Global, text: &str) -> Result<Bytes, Fault> {
    let mut bytes = Bytes::new(alloc);
    let mut high = None;
    for byte in text.as_bytes() {
        let Some(low) = digit(*byte) else {
            return Err(Fault::Line);
        };
        match high {
            None => high = Some(low),
            Some(first) => {
                bytes.push(first.wrapping_mul(16).wrapping_add(low))?;
                high = None;
            }
        }
    }
    if high.is_some() {
        return Err(Fault::Line);
    }
    Ok(bytes)
}

/// The bytes with others in place from a byte on.
pub fn changed(alloc: Global, bytes: &[u8], at: usize, others: &[u8]) -> Result<Bytes, Fault> {
    let mut changed = Bytes::from_slice(alloc, bytes)?;
    for (k, byte) in others.iter().enumerate() {
        let place = at.saturating_add(k);
        if changed.len() <= place {
            return Err(Fault::Line);
        }
        changed.set(place, *byte);
    }
    Ok(changed)
}

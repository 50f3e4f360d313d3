//! Numbers and bytes as lines spell them.

use crate::fault::Fault;
use il_base::Bytes;
use std::alloc::{AllocError, Global};

/// The value of a hexadecimal digit.
fn digit(byte: u8) -> Option<u8> {
    match byte {
        b'0'..=b'9' => Some(byte.wrapping_sub(b'0')),
        b'A'..=b'F' => Some(byte.wrapping_sub(b'A').wrapping_add(10)),
        b'a'..=b'f' => Some(byte.wrapping_sub(b'a').wrapping_add(10)),
        _ => None,
    }
}

/// A number in decimal, or in hexadecimal behind `0x`.
pub fn number(word: &str) -> Result<u64, Fault> {
    let Some(digits) = word.strip_prefix("0x") else {
        return match word.parse::<u64>() {
            Ok(number) => Ok(number),
            Err(_) => Err(Fault::Meaningless),
        };
    };
    let mut number = 0u64;
    for byte in digits.as_bytes() {
        let Some(more) = digit(*byte) else {
            return Err(Fault::Meaningless);
        };
        number = number.wrapping_mul(16).wrapping_add(u64::from(more));
    }
    Ok(number)
}

/// A number of 32 bits.
pub fn number32(word: &str) -> Result<u32, Fault> {
    match u32::try_from(number(word)?) {
        Ok(number) => Ok(number),
        Err(_) => Err(Fault::Meaningless),
    }
}

/// A number of 16 bits.
pub fn number16(word: &str) -> Result<u16, Fault> {
    match u16::try_from(number(word)?) {
        Ok(number) => Ok(number),
        Err(_) => Err(Fault::Meaningless),
    }
}

/// A number of 8 bits.
pub fn number8(word: &str) -> Result<u8, Fault> {
    match u8::try_from(number(word)?) {
        Ok(number) => Ok(number),
        Err(_) => Err(Fault::Meaningless),
    }
}

/// The two words around the first blank.
pub fn two(text: &str) -> Result<(&str, &str), Fault> {
    match text.split_once(' ') {
        Some(both) => Ok(both),
        None => Err(Fault::Meaningless),
    }
}

/// The bytes of words such as `1D08` and `99*1D`: pairs of hexadecimal digits, as often as a number before them says.
pub fn bytes_of(alloc: Global, text: &str) -> Result<Bytes, Fault> {
    let mut bytes = Bytes::new(alloc);
    for word in text.split_whitespace() {
        push_word(&mut bytes, word)?;
    }
    Ok(bytes)
}

fn push_word(bytes: &mut Bytes, word: &str) -> Result<(), Fault> {
    let Some((count, pairs)) = word.split_once('*') else {
        return push_pairs(bytes, word);
    };
    for _ in 0..number32(count)? {
        push_pairs(bytes, pairs)?;
    }
    Ok(())
}

fn push_pairs(bytes: &mut Bytes, pairs: &str) -> Result<(), Fault> {
    let mut first = None;
    for byte in pairs.as_bytes() {
        let Some(low) = digit(*byte) else {
            return Err(Fault::Meaningless);
        };
        match first {
            None => first = Some(low),
            Some(high) => {
                bytes.push(high.wrapping_mul(16).wrapping_add(low))?;
                first = None;
            }
        }
    }
    if first.is_some() {
        return Err(Fault::Meaningless);
    }
    Ok(())
}

/// Adds bytes as pairs of hexadecimal digits, with blanks between.
pub fn push_hex(out: &mut String, bytes: &[u8]) -> Result<(), AllocError> {
    let mut blank = "";
    for byte in bytes {
        write!(out, "{blank}{byte:02X}")?;
        blank = " ";
    }
    Ok(())
}

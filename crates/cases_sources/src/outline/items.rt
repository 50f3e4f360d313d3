//! Numbers, bytes and units.

use il_base::NoMemory;

/// A word and a number.
pub(super) fn push_number(out: &mut String, before: &str, number: u64) -> Result<(), NoMemory> {
    write!(out, "{before}{number}")?;
    Ok(())
}

/// A word and flags.
pub(super) fn push_flags(out: &mut String, before: &str, flags: u32) -> Result<(), NoMemory> {
    write!(out, "{before}{flags:x}")?;
    Ok(())
}

/// A word, and bytes in parentheses.
pub(super) fn push_bytes(out: &mut String, before: &str, bytes: &[u8]) -> Result<(), NoMemory> {
    out.push_str(before)?;
    out.push('(')?;
    for byte in bytes {
        write!(out, "{byte:02x}")?;
    }
    out.push(')')?;
    Ok(())
}

/// UTF-16 units in quotes.
pub(super) fn push_units(out: &mut String, units: &[u16]) -> Result<(), NoMemory> {
    out.push('"')?;
    for unit in units {
        match char::from_u32(u32::from(*unit)) {
            Some(letter) if letter.is_ascii_alphanumeric() => out.push(letter)?,
            _ => write!(out, "\\{unit:04x}")?,
        }
    }
    out.push('"')?;
    Ok(())
}

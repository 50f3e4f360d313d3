//! Sources that are made of pieces, of which some stand very often.

use crate::fault::VectorFault;
use std::alloc::{AllocError, Global};

/// The source that rows make. A row is a count, a blank and a piece, which stands so many times, each time with a line end, or
/// without one where a backslash ends the row; for the first `#` in the piece stands the number of its copy, from 0.
///
/// # Errors
///
/// A row isn't of that form, or there was no memory.
pub fn source_of(alloc: Global, rows: &str) -> Result<String, VectorFault> {
    let mut source = String::new(alloc);
    for row in rows.lines() {
        let Some((count, piece)) = row.split_once(' ') else {
            return Err(VectorFault::Meaningless);
        };
        let Ok(count) = count.parse::<u32>() else {
            return Err(VectorFault::Meaningless);
        };
        match piece.strip_suffix('\\') {
            Some(open) => push_copies(&mut source, open, "", count)?,
            None => push_copies(&mut source, piece, "\n", count)?,
        }
    }
    Ok(source)
}

// Adds so many copies of a piece, each with an end.
fn push_copies(source: &mut String, piece: &str, end: &str, count: u32) -> Result<(), AllocError> {
    match piece.split_once('#') {
        Some((before, after)) => {
            for number in 0..count {
                write!(source, "{before}{number}{after}{end}")?;
            }
        }
        None => {
            for _ in 0..count {
                source.push_str(piece)?;
                source.push_str(end)?;
            }
        }
    }
    Ok(())
}

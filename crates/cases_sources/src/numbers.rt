//! Sources that differ in one number.

use crate::fault::VectorFault;
use crate::reading::Shown;
use crate::report::push_report;
use std::alloc::Global;

/// A line for each source of a file: the rule that it breaks, or `ok`. The file's first line begins each source. Each further line
/// has numbers, a colon between blanks, and what ends the source, in which one of the numbers stands for `#`.
///
/// # Errors
///
/// The file isn't of that form, a source is too long, or there was no memory.
pub fn push_numbers(
    alloc: Global,
    out: &mut String,
    name: &str,
    file: &str,
    shown: Shown,
) -> Result<(), VectorFault> {
    let mut lines = file.lines();
    let Some(head) = lines.next() else {
        return Err(VectorFault::Meaningless);
    };
    for line in lines {
        let Some((numbers, text)) = line.split_once(" : ") else {
            return Err(VectorFault::Meaningless);
        };
        let Some((before, after)) = text.split_once('#') else {
            return Err(VectorFault::Meaningless);
        };
        writeln!(out, "{name}: {text}")?;
        for number in numbers.split_whitespace() {
            let source = format!(in alloc; "{head}\n{before}{number}{after}")?;
            push_report(alloc, out, number, source.as_bytes(), shown)?;
        }
    }
    Ok(())
}

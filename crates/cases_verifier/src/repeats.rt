//! Lines that stand for many.

use std::alloc::{AllocError, Global};

/// The text, in which a line such as `40* .class K$ extends K% { }` stands for as many lines as its number says: in each `$`
/// is its number, from 0, and `%` the next.
pub fn written_out(alloc: Global, text: &str) -> Result<String, AllocError> {
    let mut all = String::new(alloc);
    for line in text.lines() {
        match counted(line) {
            Some((count, line)) => push_lines(&mut all, alloc, count, line)?,
            None => push_line(&mut all, line)?,
        }
    }
    Ok(all)
}

/// How often a line stands, and the line itself, where it begins with a number and `*`.
fn counted(line: &str) -> Option<(u32, &str)> {
    let (number, line) = line.split_once("* ")?;
    match number.parse::<u32>() {
        Ok(count) => Some((count, line)),
        Err(_) => None,
    }
}

fn push_lines(all: &mut String, alloc: Global, count: u32, line: &str) -> Result<(), AllocError> {
    for k in 0..count {
        let line = numbered(alloc, line, k)?;
        push_line(all, line.as_str())?;
    }
    Ok(())
}

/// The line with that number.
fn numbered(alloc: Global, line: &str, k: u32) -> Result<String, AllocError> {
    let this = format!(in alloc; "{k}")?;
    let next = format!(in alloc; "{}", k.saturating_add(1))?;
    let line = line.replace(alloc, '$', this.as_str())?;
    line.replace(alloc, '%', next.as_str())
}

fn push_line(all: &mut String, line: &str) -> Result<(), AllocError> {
    all.push_str(line)?;
    all.push_str("\n")
}

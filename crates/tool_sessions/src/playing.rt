//! The lines of a script, one after the other.

use crate::fault::SessionFault;
use crate::outcome::{Outcome, Plan, left_by};
use crate::stores::{Stores, words_of};
use crate::sweeps::{Failing, sweep};
use il_base::Bytes;
use std::alloc::Global;

/// Plays a script, and prints what comes.
///
/// # Errors
///
/// A line has no meaning, the output couldn't be written, or there was no memory.
pub fn play(rt: &HostRuntime, script: &str) -> Result<(), SessionFault> {
    let mut stores = Stores::new(rt.alloc());
    for line in script.lines() {
        play_line(rt, &mut stores, line)?;
    }
    Ok(())
}

/// Plays a line.
fn play_line(rt: &HostRuntime, stores: &mut Stores, line: &str) -> Result<(), SessionFault> {
    if line.is_empty() || line.starts_with('#') {
        return say(rt, line);
    }
    if let Some(text) = line.strip_prefix('|') {
        stores.add(text.as_bytes(), 1)?;
        return stores.add(b"\n", 1);
    }
    if let Some(text) = line.strip_prefix('+') {
        return stores.add(text.as_bytes(), 1);
    }
    let (verb, rest) = match line.split_once(' ') {
        Some(parts) => parts,
        None => (line, ""),
    };
    match verb {
        "file" => stores.begin(rt.alloc(), rest),
        "hex" => add_hex(rt.alloc(), stores, rest),
        "times" => match rest.split_once(' ') {
            Some((count, text)) => add_times(rt.alloc(), stores, count, text),
            None => Err(SessionFault::Meaningless),
        },
        "blanks" => add_times(rt.alloc(), stores, rest, " "),
        "watch" => {
            stores.watch(words_of(rt.alloc(), rest)?);
            Ok(())
        }
        "run" => show_run(rt, stores, rest, None),
        "holds" => match rest.split_once(' ') {
            Some((digits, words)) => show_held(rt, stores, digits, words),
            None => Err(SessionFault::Meaningless),
        },
        _ => play_counted(rt, stores, verb, rest),
    }
}

/// Plays a line with a number behind its first word.
fn play_counted(
    rt: &HostRuntime,
    stores: &Stores,
    verb: &str,
    rest: &str,
) -> Result<(), SessionFault> {
    let Some((number, line)) = rest.split_once(' ') else {
        return Err(SessionFault::Meaningless);
    };
    let Ok(most) = number.parse::<u32>() else {
        return Err(SessionFault::Meaningless);
    };
    let most = most as usize;
    match verb {
        "short" => show_run(rt, stores, line, Some(most)),
        "shelf" => {
            say_sweep(rt, "shelf", most, line)?;
            sweep(rt, stores, line, most, Failing::Shelf)
        }
        "console" => {
            say_sweep(rt, "console", most, line)?;
            sweep(rt, stores, line, most, Failing::Console)
        }
        _ => Err(SessionFault::Meaningless),
    }
}

/// Adds the bytes that pairs of digits spell.
fn add_hex(alloc: Global, stores: &mut Stores, digits: &str) -> Result<(), SessionFault> {
    let bytes = bytes_of(alloc, digits)?;
    stores.add(bytes.as_slice(), 1)
}

/// The bytes that pairs of digits spell.
fn bytes_of(alloc: Global, digits: &str) -> Result<Bytes, SessionFault> {
    let mut bytes = Bytes::new(alloc);
    let mut high: Option<u8> = None;
    for digit in digits.bytes() {
        let value = match digit {
            b'0'..=b'9' => digit - b'0',
            b'A'..=b'F' => digit - b'A' + 10,
            _ => return Err(SessionFault::Meaningless),
        };
        match high {
            Some(above) => {
                bytes.push(above.wrapping_mul(16) | value)?;
                high = None;
            }
            None => high = Some(value),
        }
    }
    Ok(bytes)
}

/// Adds a text so many times; a thousand of them at once, since there may be many.
fn add_times(
    alloc: Global,
    stores: &mut Stores,
    count: &str,
    text: &str,
) -> Result<(), SessionFault> {
    let Ok(count) = count.parse::<u32>() else {
        return Err(SessionFault::Meaningless);
    };
    let mut thousand = Bytes::new(alloc);
    for _ in 0..1000 {
        thousand.extend(text.as_bytes())?;
    }
    stores.add(thousand.as_slice(), count / 1000)?;
    stores.add(text.as_bytes(), count % 1000)
}

/// Prints a line.
pub fn say(rt: &HostRuntime, line: &str) -> Result<(), SessionFault> {
    rt.println(line).map_err(|_| SessionFault::Unwritten)
}

/// Prints the head of a sweep.
fn say_sweep(rt: &HostRuntime, what: &str, most: usize, line: &str) -> Result<(), SessionFault> {
    let text = format!(in rt.alloc(); "> {line} ({what}, {most} bytes a call)")?;
    say(rt, text.as_str())
}

/// Runs the program, and prints the status with the file that was made, and what was said.
fn show_run(
    rt: &HostRuntime,
    stores: &Stores,
    line: &str,
    most: Option<usize>,
) -> Result<(), SessionFault> {
    let words = words_of(rt.alloc(), line)?;
    let plan = Plan { most, ..Plan::ANY };
    let left = left_by(rt.alloc(), stores, &words, plan)?;
    let head = match most {
        Some(most) => format!(in rt.alloc(); "> {line} ({most} bytes a call)")?,
        None if line.is_empty() => format!(in rt.alloc(); ">")?,
        None => format!(in rt.alloc(); "> {line}")?,
    };
    say(rt, head.as_str())?;
    show_outcome(rt, stores, &left)
}

/// Runs the program, and prints how often the file that was made has these bytes.
fn show_held(
    rt: &HostRuntime,
    stores: &Stores,
    digits: &str,
    line: &str,
) -> Result<(), SessionFault> {
    let bytes = bytes_of(rt.alloc(), digits)?;
    let words = words_of(rt.alloc(), line)?;
    let left = left_by(rt.alloc(), stores, &words, Plan::ANY)?;
    let count = match left.made(stores) {
        Some((_, file)) => times_in(file, bytes.as_slice()),
        None => 0,
    };
    let text = format!(in rt.alloc(); "> {line}: {count} times {digits}")?;
    say(rt, text.as_str())
}

/// How often bytes stand in a file.
fn times_in(file: &[u8], bytes: &[u8]) -> u64 {
    let mut count = 0u64;
    for start in 0..file.len() {
        if file[start..].starts_with(bytes) {
            count = count.saturating_add(1);
        }
    }
    count
}

/// Prints what a run left.
fn show_outcome(rt: &HostRuntime, stores: &Stores, left: &Outcome) -> Result<(), SessionFault> {
    let status = left.status;
    let text = match left.made(stores) {
        Some((name, _)) => format!(in rt.alloc(); "{status}, {name}")?,
        None => format!(in rt.alloc(); "{status}")?,
    };
    say(rt, text.as_str())?;
    show_lines(rt, "| ", left.console.out_bytes())?;
    show_lines(rt, "! ", left.console.err_bytes())
}

/// Prints each line of what was said, behind a mark.
fn show_lines(rt: &HostRuntime, mark: &str, said: &[u8]) -> Result<(), SessionFault> {
    let Ok(said) = str::from_utf8(said) else {
        return say(rt, "no text");
    };
    for line in said.lines() {
        let text = format!(in rt.alloc(); "{mark}{line}")?;
        say(rt, text.as_str())?;
    }
    Ok(())
}

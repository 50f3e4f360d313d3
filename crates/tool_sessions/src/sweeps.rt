//! Runs in which one call fails, the first, the second and so on.

use crate::fault::SessionFault;
use crate::outcome::{Outcome, Plan, left_by};
use crate::playing::say;
use crate::stores::{Stores, words_of};

/// Whose calls fail.
#[derive(Clone, Copy, PartialEq, Eq)]
pub enum Failing {
    Shelf,
    Console,
}

/// At most so many runs.
const RUNS: u64 = 100_000;

/// How the line ends that names an input which can't be read.
const UNREAD: &[u8] = b": cannot be read\n";

/// What a run with a failing call left, beside what the run without one leaves.
#[derive(Clone, Copy)]
struct Front {
    status: u8,
    /// How many bytes stand on standard output, and on standard error.
    out: usize,
    err: usize,
    /// How many bytes of the file stand, where it was begun.
    file: Option<usize>,
    /// Something stands that is no front of what the whole run leaves.
    is_odd: bool,
    /// What was said isn't that an input can't be read.
    is_read: bool,
}

impl Front {
    /// How many bytes stand.
    fn length(&self) -> usize {
        self.out
            .saturating_add(self.err)
            .saturating_add(self.file.unwrap_or(0))
    }
}

/// The calls that leave the same, but for the length of a front that grows by the same number each time.
#[derive(Clone, Copy)]
struct Group {
    first: u64,
    last: u64,
    /// What the first and the last of them left.
    from: Front,
    to: Front,
    step: Option<usize>,
}

/// Prints what the runs leave in which the calls fail, one in each, until a run ends without a failure.
///
/// # Errors
///
/// The output couldn't be written, or there was no memory. Each of very many runs has failed: the line has no meaning.
pub fn sweep(
    rt: &HostRuntime,
    stores: &Stores,
    line: &str,
    most: usize,
    failing: Failing,
) -> Result<(), SessionFault> {
    let words = words_of(rt.alloc(), line)?;
    let whole = left_by(
        rt.alloc(),
        stores,
        &words,
        Plan {
            most: None,
            shelf: None,
            console: None,
        },
    )?;
    let mut group: Option<Group> = None;
    for call in 1..RUNS {
        let (shelf, console) = match failing {
            Failing::Shelf => (Some(call), None),
            Failing::Console => (None, Some(call)),
        };
        let plan = Plan {
            most: Some(most),
            shelf,
            console,
        };
        let left = left_by(rt.alloc(), stores, &words, plan)?;
        let front = front_of(stores, &whole, &left);
        group = joined(rt, group, call, front)?;
        if !left.has_failed() {
            if let Some(group) = group {
                show_group(rt, &group)?;
            }
            return Ok(());
        }
    }
    Err(SessionFault::Meaningless)
}

/// What a run left, beside what the whole run leaves.
fn front_of(stores: &Stores, whole: &Outcome, left: &Outcome) -> Front {
    let out = left.console.out_bytes();
    let err = left.console.err_bytes();
    let is_read = !err.ends_with(UNREAD);
    let (file, is_file_odd) = match (whole.made(stores), left.made(stores)) {
        (Some((_, all)), Some((_, now))) => (Some(now.len()), !all.starts_with(now)),
        (None, Some((_, now))) => (Some(now.len()), true),
        (_, None) => (None, false),
    };
    let is_odd = is_file_odd
        || !whole.console.out_bytes().starts_with(out)
        || (is_read && !whole.console.err_bytes().starts_with(err));
    Front {
        status: left.status,
        out: out.len(),
        err: err.len(),
        file,
        is_odd,
        is_read,
    }
}

/// The group with one run more; where that doesn't belong there, the group is printed, and a new one begins.
fn joined(
    rt: &HostRuntime,
    group: Option<Group>,
    call: u64,
    front: Front,
) -> Result<Option<Group>, SessionFault> {
    let Some(group) = group else {
        return Ok(Some(started(call, front)));
    };
    let step = front.length().saturating_sub(group.to.length());
    if belongs(&group, &front, step) {
        let Group { first, from, .. } = group;
        return Ok(Some(Group {
            first,
            last: call,
            from,
            to: front,
            step: Some(step),
        }));
    }
    show_group(rt, &group)?;
    Ok(Some(started(call, front)))
}

/// The group of one run.
fn started(call: u64, front: Front) -> Group {
    Group {
        first: call,
        last: call,
        from: front,
        to: front,
        step: None,
    }
}

/// Whether a run leaves the same as those of the group, but for a front that is longer by the step.
fn belongs(group: &Group, front: &Front, step: usize) -> bool {
    let last = &group.to;
    last.status == front.status
        && last.is_odd == front.is_odd
        && last.is_read == front.is_read
        && last.file.is_some() == front.file.is_some()
        && last.length() <= front.length()
        && group.step.unwrap_or(step) == step
}

/// Prints what the runs of a group leave.
fn show_group(rt: &HostRuntime, group: &Group) -> Result<(), SessionFault> {
    let Group {
        first,
        last,
        from,
        to,
        ..
    } = group;
    let mut text = String::new(rt.alloc());
    if first == last {
        write!(text, "{first}: {}", from.status)?;
    } else {
        write!(text, "{first}-{last}: {}", from.status)?;
    }
    push_lengths(&mut text, "out", from.out, to.out)?;
    push_lengths(&mut text, "err", from.err, to.err)?;
    match (from.file, to.file) {
        (Some(from), Some(to)) if from == to => write!(text, ", file {from}")?,
        (Some(from), Some(to)) => push_lengths(&mut text, "file", from, to)?,
        _ => {}
    }
    match group.step {
        Some(step) if step > 0 => write!(text, " by {step}")?,
        _ => {}
    }
    if from.is_odd {
        text.push_str(", no front")?;
    }
    if !from.is_read {
        text.push_str(", said that an input isn't read")?;
    }
    say(rt, text.as_str())
}

/// Adds a length, or the first and the last of several; nothing where all are 0.
fn push_lengths(text: &mut String, what: &str, from: usize, to: usize) -> Result<(), SessionFault> {
    if from != to {
        write!(text, ", {what} {from} to {to}")?;
    } else if from > 0 {
        write!(text, ", {what} {from}")?;
    }
    Ok(())
}

//! What a run leaves.

use crate::fault::SessionFault;
use crate::stores::Stores;
use il_base::{MemConsole, MemShelf, Text, Words};
use il_tools::run;
use std::alloc::Global;

/// Which calls fail, and how many bytes a call takes.
#[derive(Clone, Copy)]
pub struct Plan {
    /// At most so many bytes a call, where there is a limit.
    pub most: Option<usize>,
    /// The number of the call of the shelf that fails, counted from 1, where one is to.
    pub shelf: Option<u64>,
    /// The number of the call of the console that fails.
    pub console: Option<u64>,
}

impl Plan {
    /// No call fails, and each takes what it is given.
    pub const ANY: Plan = Plan {
        most: None,
        shelf: None,
        console: None,
    };
}

/// What a run leaves.
#[derive(Drop)]
pub struct Outcome {
    /// The status.
    pub status: u8,
    /// The shelf.
    pub shelf: MemShelf,
    /// The console.
    pub console: MemConsole,
}

impl Outcome {
    /// Whether a call failed.
    pub fn has_failed(&self) -> bool {
        self.shelf.failed_reads() > 0 || self.shelf.failed_writes() > 0 || self.console.failed() > 0
    }

    /// The bytes of the first watched file that the run made or changed.
    pub fn made<'a>(&'a self, stores: &'a Stores) -> Option<(&'a str, &'a [u8])> {
        for name in stores.watched() {
            let name = name.as_str();
            if let Some(now) = self.shelf.file(name) {
                if stores.file(name) != Some(now) {
                    return Some((name, now));
                }
            }
        }
        None
    }
}

/// Runs the program on these words, over the files of the script.
pub fn left_by(
    alloc: Global,
    stores: &Stores,
    words: &Words,
    plan: Plan,
) -> Result<Outcome, SessionFault> {
    let mut shelf = stores.shelf(alloc)?;
    let mut console = MemConsole::new(alloc);
    if let Some(most) = plan.most {
        shelf.at_most(most);
        console.at_most(most);
    }
    if let Some(call) = plan.shelf {
        shelf.fail_at(call)?;
    }
    if let Some(call) = plan.console {
        console.fail_at(call)?;
    }
    let status = run(alloc, words, &mut shelf, &mut console);
    Ok(Outcome {
        status: status.number,
        shelf,
        console,
    })
}

//! The top call.
ghost use Rattle.std.specs.Prelude.{◌≡◌, ◌≤◌, IsTrue, IfOk};
ghost use Rattle.command_words.specs.Words.{usage_fault, command_of};
ghost use Rattle.run_endings.specs.Runs.{IsPlanned};
ghost use Rattle.il_tools.specs.Commands.{inputs_of, Gives, MeritsOf, Ran};

use crate::kept::KeptTree;
use crate::planning::ending_of;
use command_words::{WordFault, parse_words};
use il_base::{Console, NoMemory, Shelf, Words};
use run_endings::{Ending, perform, usage_said};
use std::alloc::Global;

/// How the program ends.
///
/// 0: done. 1: the source has a fault, or its assembly is too large. 2: the words don't fit. 3: a file can't be
/// read. 4: a write failed. 5: a file is longer than its limit. 6: there is no memory.
#[derive(Debug, Clone, Copy, PartialEq, Eq)]
pub struct Status {
    /// The exit status.
    pub number: u8,
}

// The status where there is no memory.
const LACKING: u8 = 6;

/// Does all that the program does: `ilasm FILE [-dll or -exe] [-output=NAME]` assembles FILE. `words` are those behind the
/// program's name.
///
/// A source that has a fault is refused with its first rule and line (II.5 to II.23), and one whose assembly is too large for an
/// image with Z1. All that is said and written is made before the first write.
pub fn run<S: Shelf, C: Console>(
    alloc: Global,
    words: &Words,
    shelf: &mut S,
    console: &mut C,
) -> Status
    ensures ran { Ran words.now result.number (record { tells = S.tells shelf.old; before = S.files shelf.old; now = S.files shelf.new; reads = S.failed_reads shelf.old; reads_now = S.failed_reads shelf.new; writes = S.failed_writes shelf.old; writes_now = S.failed_writes shelf.new }) (record { tells = C.tells console.old; out = C.out_taken console.old; out_now = C.out_taken console.new; err = C.err_taken console.old; err_now = C.err_taken console.new; failed = C.failed console.old; failed_now = C.failed console.new }) }

    // What stays.
    ensures shelf_tells { S.tells shelf.new ≡ S.tells shelf.old }
    ensures console_tells { C.tells console.new ≡ C.tells console.old }
    ensures reads_stay { S.failed_reads shelf.old ≤ S.failed_reads shelf.new }
    ensures writes_stay { S.failed_writes shelf.old ≤ S.failed_writes shelf.new }
    ensures count_stays { C.failed console.old ≤ C.failed console.new }
{
    let mut kept = KeptTree::new();
    run_and_keep(alloc, words, shelf, console, &mut kept)
}

/// The same, for a caller that gives the trees back later, or leaves that to the end of its process: where some were made,
/// `kept` holds them.
pub fn run_and_keep<S: Shelf, C: Console>(
    alloc: Global,
    words: &Words,
    shelf: &mut S,
    console: &mut C,
    kept: &mut KeptTree,
) -> Status
    ensures ran { Ran words.now result.number (record { tells = S.tells shelf.old; before = S.files shelf.old; now = S.files shelf.new; reads = S.failed_reads shelf.old; reads_now = S.failed_reads shelf.new; writes = S.failed_writes shelf.old; writes_now = S.failed_writes shelf.new }) (record { tells = C.tells console.old; out = C.out_taken console.old; out_now = C.out_taken console.new; err = C.err_taken console.old; err_now = C.err_taken console.new; failed = C.failed console.old; failed_now = C.failed console.new }) }

    // What stays.
    ensures shelf_tells { S.tells shelf.new ≡ S.tells shelf.old }
    ensures console_tells { C.tells console.new ≡ C.tells console.old }
    ensures reads_stay { S.failed_reads shelf.old ≤ S.failed_reads shelf.new }
    ensures writes_stay { S.failed_writes shelf.old ≤ S.failed_writes shelf.new }
    ensures count_stays { C.failed console.old ≤ C.failed console.new }
{
    match planned(alloc, words, shelf, kept) {
        Ok(ending) => Status {
            number: perform(&ending, shelf, console),
        },
        Err(_) => Status { number: LACKING },
    }
}

/// All that the run of these words will say and make.
fn planned<S: Shelf>(
    alloc: Global,
    words: &Words,
    shelf: &mut S,
    kept: &mut KeptTree,
) -> Result<Ending, NoMemory>
    ensures planned { IfOk result (IsPlanned (usage_fault words.now) (inputs_of (command_of words.now)) (Gives (command_of words.now)) (MeritsOf (command_of words.now)) (S.tells shelf.old) (S.files shelf.old) (S.failed_reads shelf.old) (S.failed_reads shelf.new)) }

    // What stays.
    ensures same_files { IsTrue (S.tells shelf.old) → S.files shelf.new ≡ S.files shelf.old }
    ensures same_tells { S.tells shelf.new ≡ S.tells shelf.old }
    ensures reads_stay { S.failed_reads shelf.old ≤ S.failed_reads shelf.new }
    ensures same_writes { S.failed_writes shelf.new ≡ S.failed_writes shelf.old }
{
    match parse_words(alloc, words) {
        Ok(command) => {
            let ending = ending_of(alloc, command, shelf, kept)?;
            Ok(ending)
        }
        Err(WordFault::At { word }) => {
            let ending = usage_said(alloc, word)?;
            Ok(ending)
        }
        Err(WordFault::NoMemory) => Err(NoMemory),
    }
}

//! Performing an ending: the file, then standard output, then standard error. No call here takes memory.
ghost use Rattle.std.specs.Prelude.{◌≡◌, ◌≤◌, Some, IsTrue, OnOk, OnErr};
ghost use Rattle.il_base.specs.Outside.{Rose};
ghost use Rattle.run_endings.specs.Ends.{IsPerformed, IsMade, IsBegun, IsBrokenOff, Takes};
ghost use Rattle.run_endings.specs.declared.ending.Made.{Made as MadeFile};

use crate::output::{write_error, write_file, write_out};
use crate::{Ending, Made};
use il_base::{Console, Failed, Shelf};

// The status where something can't be written.
const UNWRITTEN: u8 = 4;

/// Writes what the ending makes and says, and answers its status; or 4 where something can't be written. What comes behind
/// that isn't written then.
pub fn perform<S: Shelf, C: Console>(ending: &Ending, shelf: &mut S, console: &mut C) -> u8
    ensures performed { IsPerformed ending.now (record { tells = S.tells shelf.old; before = S.files shelf.old; now = S.files shelf.new; reads = S.failed_reads shelf.old; reads_now = S.failed_reads shelf.new; writes = S.failed_writes shelf.old; writes_now = S.failed_writes shelf.new }) (record { tells = C.tells console.old; out = C.out_taken console.old; out_now = C.out_taken console.new; err = C.err_taken console.old; err_now = C.err_taken console.new; failed = C.failed console.old; failed_now = C.failed console.new }) result }

    // What stays.
    ensures shelf_tells { S.tells shelf.new ≡ S.tells shelf.old }
    ensures console_tells { C.tells console.new ≡ C.tells console.old }
    ensures same_reads { S.failed_reads shelf.new ≡ S.failed_reads shelf.old }
    ensures writes_stay { S.failed_writes shelf.old ≤ S.failed_writes shelf.new }
    ensures count_stays { C.failed console.old ≤ C.failed console.new }
{
    match make(&ending.file, shelf) {
        Ok(()) => match speak(ending, console) {
            Ok(()) => ending.number,
            Err(_) => UNWRITTEN,
        },
        Err(_) => UNWRITTEN,
    }
}

/// Makes the file, where there is one.
fn make<S: Shelf>(file: &Option<Made>, shelf: &mut S) -> Result<(), Failed>
    ensures made { OnOk result (IsMade file.now (record { tells = S.tells shelf.old; before = S.files shelf.old; now = S.files shelf.new; reads = S.failed_reads shelf.old; reads_now = S.failed_reads shelf.new; writes = S.failed_writes shelf.old; writes_now = S.failed_writes shelf.new })) }
    ensures begun { OnErr result ((made : MadeFile) × (file.now ≡ Some made) × Rose (S.failed_writes shelf.old) (S.failed_writes shelf.new) × IsBegun made (record { tells = S.tells shelf.old; before = S.files shelf.old; now = S.files shelf.new; reads = S.failed_reads shelf.old; reads_now = S.failed_reads shelf.new; writes = S.failed_writes shelf.old; writes_now = S.failed_writes shelf.new })) }

    // What stays.
    ensures same_tells { S.tells shelf.new ≡ S.tells shelf.old }
    ensures same_reads { S.failed_reads shelf.new ≡ S.failed_reads shelf.old }
    ensures writes_stay { S.failed_writes shelf.old ≤ S.failed_writes shelf.new }
{
    match file {
        Some(made) => {
            write_file(shelf, made.name.as_str(), made.bytes.as_slice())?;
            Ok(())
        }
        None => Ok(()),
    }
}

/// Says what is to be said: standard output first.
fn speak<C: Console>(ending: &Ending, console: &mut C) -> Result<(), Failed>
    ensures taken { OnOk result (Takes (record { tells = C.tells console.old; out = C.out_taken console.old; out_now = C.out_taken console.new; err = C.err_taken console.old; err_now = C.err_taken console.new; failed = C.failed console.old; failed_now = C.failed console.new }) ending.now.out ending.now.err) }
    ensures broken { OnErr result (IsBrokenOff ending.now.out ending.now.err (record { tells = C.tells console.old; out = C.out_taken console.old; out_now = C.out_taken console.new; err = C.err_taken console.old; err_now = C.err_taken console.new; failed = C.failed console.old; failed_now = C.failed console.new })) }

    // What stays.
    ensures same_tells { C.tells console.new ≡ C.tells console.old }
    ensures count_stays { C.failed console.old ≤ C.failed console.new }
{
    write_out(console, ending.out.as_bytes())?;
    write_error(console, ending.err.as_bytes())?;
    Ok(())
}

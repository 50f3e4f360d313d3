//! What a command reads, and what it says and makes of that.
ghost use Rattle.std.specs.Prelude.{◌≡◌, ℕ, None, ◌≤◌, IsTrue, IfOk, length};
ghost use Rattle.run_endings.specs.Runs.{IsPlanned};
ghost use Rattle.il_tools.specs.Commands.{inputs_of, Gives, MeritsOf, AreWithin};

use crate::assembling::assembled;
use crate::kept::KeptTree;
use command_words::Command;
use il_base::{Bytes, Items, NoMemory, Shelf, Text};
use run_endings::{Ending, Input, Stop, read_inputs, too_long_said, unread_said};
use std::alloc::Global;

/// The greatest number of bytes of a source.
const SOURCE_LIMIT: u32 = 0x0800_0000;

/// The ending of a command: its inputs are read from the shelf, all before any is looked at; and all that is said and made is
/// made in memory.
pub(crate) fn ending_of<S: Shelf>(
    alloc: Global,
    command: Command,
    shelf: &mut S,
    kept: &mut KeptTree,
) -> Result<Ending, NoMemory>
    ensures planned { IfOk result (IsPlanned None (inputs_of command) (Gives command) (MeritsOf command) (S.tells shelf.old) (S.files shelf.old) (S.failed_reads shelf.old) (S.failed_reads shelf.new)) }

    // What stays.
    ensures same_files { IsTrue (S.tells shelf.old) → S.files shelf.new ≡ S.files shelf.old }
    ensures same_tells { S.tells shelf.new ≡ S.tells shelf.old }
    ensures reads_stay { S.failed_reads shelf.old ≤ S.failed_reads shelf.new }
    ensures same_writes { S.failed_writes shelf.new ≡ S.failed_writes shelf.old }
{
    let inputs = inputs_of(alloc, &command)?;
    match read_inputs(alloc, shelf, inputs.as_slice()) {
        Ok(given) => {
            let ending = plan(alloc, command, given.as_slice(), kept)?;
            Ok(ending)
        }
        Err(Stop::Unread(input)) => {
            let ending = unread_said(alloc, input)?;
            Ok(ending)
        }
        Err(Stop::TooLong(input)) => {
            let ending = too_long_said(alloc, input)?;
            Ok(ending)
        }
        Err(Stop::NoMemory) => Err(NoMemory),
    }
}

/// What a command reads, in the order of reading.
fn inputs_of(alloc: Global, command: &Command) -> Result<Items<Input>, NoMemory>
    ensures { IfOk result (λ inputs. inputs ≡ inputs_of command.now) }
{
    match command {
        Command::Ilasm { file, .. } => {
            let name = Text::new(alloc, file.as_str())?;
            let input = Input {
                name,
                limit: SOURCE_LIMIT,
            };
            let inputs = Items::one(alloc, input)?;
            Ok(inputs)
        }
    }
}

/// What a command says and makes of the bytes that were read for it.
fn plan(
    alloc: Global,
    command: Command,
    given: &[Bytes],
    kept: &mut KeptTree,
) -> Result<Ending, NoMemory>
    requires { AreWithin (inputs_of command) given.now }
    ensures gives { IfOk result (Gives command given.now) }
    ensures merits { (m : ℕ) → MeritsOf command given.now m → IfOk result (λ e. e.number ≡ m) }
{
    match command {
        Command::Ilasm {
            file,
            kind,
            optimize,
            output,
        } => {
            let ending = assembled(
                alloc,
                file.as_str(),
                kind,
                optimize,
                output,
                given[0].as_slice(),
                kept,
            )?;
            Ok(ending)
        }
    }
}

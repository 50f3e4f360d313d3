//! Reading inputs from a shelf, each whole.
ghost use Rattle.std.specs.Prelude.{◌≡◌, ℕ, ◌<◌, ◌≤◌, ◌⊎◌, List, Some, None, length, IsTrue, IfOk, IfErr};
ghost use Rattle.il_base.specs.Outside.{Rose};
ghost use Rattle.run_endings.specs.Reads.{AreRead, IsStop};

use crate::{Input, Stop};
use il_base::{Bytes, Items, NoMemory, Shelf};
use std::alloc::Global;
use thiserror::Error;

/// Why a file wasn't read whole.
#[derive(Debug, Clone, Copy, PartialEq, Eq, Drop, Error)]
enum ReadFault {
    /// The shelf failed in a read.
    #[error("cannot be read")]
    Unread,
    /// The file has more bytes than the limit.
    #[error("longer than the limit")]
    TooLong,
    /// There was no memory for it.
    #[error("no memory")]
    NoMemory,
}

impl From<NoMemory> for ReadFault {
    ghost use Rattle.run_endings.specs.declared.reading.ReadFault.TheVariants.{NoMemory as Lacking};

    ghost from_gives = { λ _ fault. fault ≡ Lacking };

    fn from(_fault: NoMemory) -> ReadFault {
        ReadFault::NoMemory
    }
}

// How many bytes are asked for at a time.
const PIECE: usize = 0x1_0000;

/// The bytes of all inputs, in their order.
///
/// # Errors
///
/// `Unread`: the first input in whose reads the shelf failed, or of whose name it has no file. `TooLong`: the first with
/// more bytes than its limit. Those before it were read. `NoMemory`: there was none for the bytes.
pub fn read_inputs<'a, S: Shelf>(
    alloc: Global,
    shelf: &mut S,
    inputs: &'a [Input],
) -> Result<Items<Bytes>, Stop<'a>>
    ensures given { IfOk result (AreRead (S.tells shelf.old) (S.files shelf.old) inputs.now) }
    ensures stop { IfErr result (IsStop (S.tells shelf.old) (S.files shelf.old) (S.failed_reads shelf.old) (S.failed_reads shelf.new) inputs.now) }

    // What stays.
    ensures same_files { IsTrue (S.tells shelf.old) → S.files shelf.new ≡ S.files shelf.old }
    ensures same_tells { S.tells shelf.new ≡ S.tells shelf.old }
    ensures reads_stay { S.failed_reads shelf.old ≤ S.failed_reads shelf.new }
    ensures same_writes { S.failed_writes shelf.new ≡ S.failed_writes shelf.old }
{
    let mut given = Items::new(alloc);
    for input in inputs {
        let bytes = match read_file(alloc, shelf, input.name.as_str(), input.limit) {
            Ok(bytes) => bytes,
            Err(ReadFault::Unread) => return Err(Stop::Unread(input)),
            Err(ReadFault::TooLong) => return Err(Stop::TooLong(input)),
            Err(ReadFault::NoMemory) => return Err(Stop::NoMemory),
        };
        if given.push(bytes).is_err() {
            return Err(Stop::NoMemory);
        }
    }
    Ok(given)
}

/// The bytes of the file `name`, of which there are at most `limit`.
fn read_file<S: Shelf>(
    alloc: Global,
    shelf: &mut S,
    name: &str,
    limit: u32,
) -> Result<Bytes, ReadFault>
    ensures told { IsTrue (S.tells shelf.old) → IfOk result (λ file. S.files shelf.old name.now ≡ Some file) }
    ensures within { IfOk result (λ file. length file ≤ limit) }
    ensures unread { result ≡ Err ReadFault.Unread → Rose (S.failed_reads shelf.old) (S.failed_reads shelf.new) ⊎ (IsTrue (S.tells shelf.old) × (S.files shelf.old name.now ≡ None)) }
    ensures too_long { IsTrue (S.tells shelf.old) → result ≡ Err ReadFault.TooLong → (file : List ℕ) × (S.files shelf.old name.now ≡ Some file) × (limit < length file) }

    // What stays.
    ensures same_files { IsTrue (S.tells shelf.old) → S.files shelf.new ≡ S.files shelf.old }
    ensures same_tells { S.tells shelf.new ≡ S.tells shelf.old }
    ensures reads_stay { S.failed_reads shelf.old ≤ S.failed_reads shelf.new }
    ensures same_writes { S.failed_writes shelf.new ≡ S.failed_writes shelf.old }
{
    let most = limit as usize;
    let mut file = Bytes::new(alloc);
    let mut piece = [0u8; PIECE];
    loop {
        let room = (most + 1 - file.len()).min(PIECE);
        let count = match shelf.read(name, file.len() as u64, &mut piece[..room]) {
            Ok(count) => count,
            Err(_) => return Err(ReadFault::Unread),
        };
        if count == 0 {
            return Ok(file);
        }
        file.extend(&piece[..count])?;
        if file.len() > most {
            return Err(ReadFault::TooLong);
        }
    }
}

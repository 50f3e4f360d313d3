//! Files, read whole.

use crate::LIMIT;
use crate::fault::VectorFault;
use il_base::{Bytes, DiskShelf, Shelf};

// How many bytes are asked for at a time.
const PIECE: usize = 0x1_0000;

/// The bytes of a file that is no longer than a source may be.
///
/// # Errors
///
/// The file couldn't be read, is longer, or there was no memory for it.
pub fn read_file(rt: &HostRuntime, name: &str) -> Result<Bytes, VectorFault> {
    let mut shelf = DiskShelf::new(rt, rt.alloc());
    let mut file = Bytes::new(rt.alloc());
    let mut piece = [0u8; PIECE];
    while file.len() <= LIMIT {
        let Ok(count) = shelf.read(name, file.len() as u64, &mut piece) else {
            return Err(VectorFault::Unread);
        };
        if count == 0 {
            return Ok(file);
        }
        file.extend(&piece[..count])?;
    }
    Err(VectorFault::Unread)
}

//! Scripts, read whole.

use crate::fault::SessionFault;
use il_base::{Bytes, DiskShelf, Shelf};

// How many bytes are asked for at a time.
const PIECE: usize = 0x1_0000;

// How many bytes a script may have.
const LIMIT: usize = 0x10_0000;

/// The bytes of a script.
///
/// # Errors
///
/// The file couldn't be read, is too long, or there was no memory for it.
pub fn read_script(rt: &HostRuntime, name: &str) -> Result<Bytes, SessionFault> {
    let mut shelf = DiskShelf::new(rt, rt.alloc());
    let mut file = Bytes::new(rt.alloc());
    let mut piece = [0u8; PIECE];
    while file.len() <= LIMIT {
        let Ok(count) = shelf.read(name, file.len() as u64, &mut piece) else {
            return Err(SessionFault::Unread);
        };
        if count == 0 {
            return Ok(file);
        }
        file.extend(&piece[..count])?;
    }
    Err(SessionFault::Unread)
}

//! The heaps that are filled, and contents as bytes.
ghost use Rattle.std.specs.Prelude.{◌≡◌, ◌*◌, ◌^◌, ◌<◌, length, IfOk};
ghost use Rattle.image_tokens.specs.Units.{bytes_of_units};

use heaps::{BlobHeap, StringHeap, UserHeap};
use il_base::{Bytes, NoMemory, Units};
use std::alloc::Global;

/// The heaps of texts, blobs and user strings.
#[derive(Drop)]
pub struct Heaps {
    pub strings: StringHeap,
    pub blobs: BlobHeap,
    pub user: UserHeap,
}

impl Heaps {
    /// Heaps without contents.
    pub fn new(alloc: Global) -> Result<Heaps, NoMemory> {
        Ok(Heaps {
            strings: StringHeap::new(alloc)?,
            blobs: BlobHeap::new(alloc)?,
            user: UserHeap::new(alloc)?,
        })
    }
}

/// UTF-16 units as bytes, the low one first.
pub fn bytes_of_units(alloc: Global, units: &Units) -> Result<Bytes, NoMemory>
    requires { length units.now < 2 ^ 32 }
    ensures { IfOk result (λ bytes. bytes ≡ bytes_of_units units.now) }
{
    let mut bytes = Bytes::with_capacity(alloc, 2 * units.len())?;
    for unit in units.as_slice() {
        bytes.extend(&unit.to_le_bytes())?;
    }
    Ok(bytes)
}

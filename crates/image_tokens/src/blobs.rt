//! Blobs as indexes of their heap (ECMA-335 II.24.2.4).
ghost use Rattle.std.specs.Prelude.{◌≡◌, ℕ, ◌+◌, ◌^◌, ◌<◌, ◌≤◌, Ok, length, IfOk, OnErr};
ghost use Rattle.image_tokens.specs.Blobs.{HoldsBlob, KeepsBlobs};
ghost use Rattle.image_tokens.specs.References.{size, Goes, AreKnown};

use crate::references::References;
use heaps::BlobHeap;
use il_base::NoMemory;

/// The index of a blob, which the heap gets where it lacks it.
pub fn add_blob(blobs: &mut BlobHeap, blob: &[u8]) -> Result<u32, NoMemory>
    requires { length blobs.old.bytes + length blob.now + 8 < 2 ^ 29 }
    ensures holds { IfOk result (HoldsBlob blobs.new blob.now) }
    ensures known { (index : ℕ) → HoldsBlob blobs.old blob.now index → (result ≡ Ok index) × (blobs.new ≡ blobs.old) }
    ensures keeps { KeepsBlobs blobs.old blobs.new }
    ensures size { length blobs.new.bytes ≤ length blobs.old.bytes + length blob.now + 4 }
    ensures err { OnErr result (blobs.new ≡ blobs.old) }
{
    blobs.add(blob)
}

/// The same in the heap of the references.
pub fn refer_blob<'a>(refs: &mut References<'a>, blob: &[u8]) -> Result<u32, NoMemory>
    requires known { AreKnown refs.old }
    requires room { size refs.old + (length blob.now + 4) ≤ 2 ^ 26 }
    ensures goes { IfOk result (λ index. Goes refs.old refs.new (length blob.now + 4)) }
    ensures holds { IfOk result (HoldsBlob refs.new.heaps.blobs blob.now) }
    ensures same { refs.new.known ≡ refs.old.known }
{
    add_blob(&mut refs.heaps.blobs, blob)
}

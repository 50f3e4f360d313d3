//! The heap of blobs, `#Blob` (ECMA-335 II.24.2.4).
ghost use Rattle.std.specs.Prelude.{◌≡◌, ℕ, ◌+◌, ◌<◌, ◌^◌, ◌∷◌, ◌⊎◌, List, [], Ok, length, Contains, IfOk, OnErr};
ghost use Rattle.heaps.specs.Content.{HasBlob};
ghost use Rattle.heaps.specs.Heap.{HoldsEach, HoldsOnce, Grows};
ghost use Rattle.heaps.specs.Written.{HasShortBlob, IsBlobEntry};

use crate::entries::Entries;
use il_base::NoMemory;
use std::alloc::Global;
use std::marker::Model;

/// Blobs, each behind its length as a packed number and each at one index. Contracts see its bytes,
/// and the indexes that are in use.
#[derive(Drop)]
pub struct BlobHeap {
    entries: Entries,
}

impl Model for BlobHeap {
    ghost use Rattle.std.specs.Prelude.{◌∷◌, ◌<◌, length};
    ghost use Rattle.heaps.specs.Heap.{Heap};

    ghost Value = { Heap };

    ghost use Rattle.heaps.specs.Written.{HasShortBlob};
    ghost use Rattle.heaps.specs.Filled.{IsFilled, IsProper, indexes};

    ghost view = { λ h. record { bytes = h.entries.bytes; used = 0 ∷ indexes h.entries.chains.places } };

    ghost invariant = { λ h. IsFilled HasShortBlob h.entries.bytes h.entries.chains × IsProper h.entries.bytes h.entries.chains × (0 < length h.entries.bytes) };
}

impl BlobHeap {
    /// The heap with the empty blob alone, at index 0.
    pub fn new(alloc: Global) -> Result<BlobHeap, NoMemory>
        ensures { IfOk result (λ h. h ≡ record { bytes = 0 ∷ []; used = 0 ∷ [] }) }
    {
        let entries = Entries::new(alloc, &[0])?;
        Ok(BlobHeap { entries })
    }

    /// The index of a blob: the old one where the blob is there, and else that of a new entry at the
    /// end. A blob that is there takes no memory. After want of memory the heap is as it was.
    pub fn add(&mut self, content: &[u8]) -> Result<u32, NoMemory>
        requires { length self.old.bytes + length content.now + 8 < 2 ^ 29 }

        ensures has { IfOk result (λ index. HasBlob self.new.bytes index content.now × Contains self.new.used index) }
        ensures within { IfOk result (λ index. index < length self.new.bytes) }
        ensures known { (index : ℕ) → Contains self.old.used index → HasBlob self.old.bytes index content.now → (result ≡ Ok index) × (self.new ≡ self.old) }
        ensures stays { (index : ℕ) (blob : List ℕ) → HasBlob self.old.bytes index blob → HasBlob self.new.bytes index blob }
        ensures grows { IfOk result (λ index. (self.new ≡ self.old) ⊎ Grows (IsBlobEntry content.now) self.old self.new index) }
        ensures err { OnErr result (self.new ≡ self.old) }
    {
        let index = self.entries.end();
        if content.is_empty() {
            return Ok(0);
        }
        if let Some(old) = self.entries.find(content) {
            return Ok(old);
        }
        self.entries.add_counted(index, content, &[])?;
        Ok(index)
    }

    /// The heap's bytes. Each index in use holds a blob, with the shortest spelling of its length, and
    /// no blob stands at two of them.
    pub fn bytes(&self) -> &[u8]
        ensures bytes { result.now ≡ self.now.bytes }
        ensures holds { HoldsEach HasShortBlob self.now }
        ensures once { HoldsOnce HasBlob self.now }
    {
        self.entries.bytes.as_slice()
    }
}

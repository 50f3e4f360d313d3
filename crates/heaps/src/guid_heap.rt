//! The heap of identifiers, `#GUID` (ECMA-335 II.24.2.5).
ghost use Rattle.std.specs.Prelude.{◌≡◌, ℕ, ◌+◌, ◌*◌, ◌<◌, ◌≤◌, ◌^◌, ◌∷◌, ◌++◌, ◌⊎◌, List, [], Ok, length, Contains, IfOk, OnErr};
ghost use Rattle.heaps.specs.Content.{HasGuid};
ghost use Rattle.heaps.specs.Heap.{HoldsEach, HoldsOnce, Grows};

use crate::entries::Entries;
use il_base::NoMemory;
use std::alloc::Global;
use std::marker::Model;

/// Identifiers of 16 bytes, counted from 1, each at one index. Contracts see its bytes, and the
/// indexes that are in use.
#[derive(Drop)]
pub struct GuidHeap {
    entries: Entries,
}

impl Model for GuidHeap {
    ghost use Rattle.std.specs.Prelude.{◌≡◌, ◌%◌, length};
    ghost use Rattle.heaps.specs.Heap.{Heap};

    ghost Value = { Heap };

    ghost use Rattle.heaps.specs.Content.{HasGuid};
    ghost use Rattle.heaps.specs.Filled.{IsFilled, indexes};

    ghost view = { λ h. record { bytes = h.entries.bytes; used = indexes h.entries.chains.places } };

    ghost invariant = { λ h. IsFilled HasGuid h.entries.bytes h.entries.chains × (length h.entries.bytes % 16 ≡ 0) };
}

impl GuidHeap {
    /// The heap without identifiers.
    pub fn new(alloc: Global) -> Result<GuidHeap, NoMemory>
        ensures { IfOk result (λ h. h ≡ record { bytes = []; used = [] }) }
    {
        let entries = Entries::new(alloc, &[])?;
        Ok(GuidHeap { entries })
    }

    /// The index of an identifier of 16 bytes: the old one where it is there, and else that of a new
    /// entry at the end. After want of memory the heap is as it was.
    pub fn add(&mut self, content: &[u8]) -> Result<u32, NoMemory>
        requires whole { length content.now ≡ 16 }
        requires room { length self.old.bytes + length content.now + 8 < 2 ^ 29 }

        ensures has { IfOk result (λ index. HasGuid self.new.bytes index content.now × Contains self.new.used index) }
        ensures within { IfOk result (λ index. 16 * index ≤ length self.new.bytes) }
        ensures known { (index : ℕ) → Contains self.old.used index → HasGuid self.old.bytes index content.now → (result ≡ Ok index) × (self.new ≡ self.old) }
        ensures stays { (index : ℕ) (id : List ℕ) → HasGuid self.old.bytes index id → HasGuid self.new.bytes index id }
        ensures grows { IfOk result (λ index. (self.new ≡ self.old) ⊎ Grows (λ entry. entry ≡ content.now) self.old self.new index) }
        ensures err { OnErr result (self.new ≡ self.old) }
    {
        let index = self.entries.end() / 16 + 1;
        if let Some(old) = self.entries.find(content) {
            return Ok(old);
        }
        self.entries.add(index, &[], content, &[])?;
        Ok(index)
    }

    /// The heap's bytes. Each index in use holds an identifier, and none stands at two of them.
    pub fn bytes(&self) -> &[u8]
        ensures bytes { result.now ≡ self.now.bytes }
        ensures holds { HoldsEach HasGuid self.now }
        ensures once { HoldsOnce HasGuid self.now }
    {
        self.entries.bytes.as_slice()
    }
}

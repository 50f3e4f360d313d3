//! The heap of texts, `#Strings` (ECMA-335 II.24.2.3).
ghost use Rattle.std.specs.Prelude.{◌≡◌, ◌≢◌, ℕ, ◌+◌, ◌<◌, ◌^◌, ◌∷◌, ◌++◌, ◌⊎◌, List, [], Ok, length, All, Contains, IsUtf8, IfOk, OnErr};
ghost use Rattle.heaps.specs.Content.{HasText};
ghost use Rattle.heaps.specs.Heap.{HoldsEach, HoldsOnce, Grows};

use crate::entries::Entries;
use il_base::NoMemory;
use std::alloc::Global;
use std::marker::Model;

/// Texts in UTF-8, each ended by a zero byte and each at one index. Contracts see its bytes, and the
/// indexes that are in use.
#[derive(Drop)]
pub struct StringHeap {
    entries: Entries,
}

impl Model for StringHeap {
    ghost use Rattle.std.specs.Prelude.{◌∷◌, ◌<◌, length};
    ghost use Rattle.heaps.specs.Heap.{Heap};

    ghost Value = { Heap };

    ghost use Rattle.heaps.specs.Content.{HasText};
    ghost use Rattle.heaps.specs.Filled.{IsFilled, IsProper, indexes};

    ghost view = { λ h. record { bytes = h.entries.bytes; used = 0 ∷ indexes h.entries.chains.places } };

    ghost invariant = { λ h. IsFilled HasText h.entries.bytes h.entries.chains × IsProper h.entries.bytes h.entries.chains × (0 < length h.entries.bytes) };
}

impl StringHeap {
    /// The heap with the empty text alone, at index 0.
    pub fn new(alloc: Global) -> Result<StringHeap, NoMemory>
        ensures { IfOk result (λ h. h ≡ record { bytes = 0 ∷ []; used = 0 ∷ [] }) }
    {
        let entries = Entries::new(alloc, &[0])?;
        Ok(StringHeap { entries })
    }

    /// Makes room for so many texts, where there are none yet.
    pub fn make_room(&mut self, alloc: Global, count: usize) -> Result<(), NoMemory>
        ensures { self.new ≡ self.old }
    {
        self.entries.make_room(alloc, count)
    }

    /// The index of a text: the old one where the text is there, and else that of a new entry at the
    /// end. After want of memory the heap is as it was.
    pub fn add(&mut self, content: &[u8]) -> Result<u32, NoMemory>
        requires utf8 { IsUtf8 content.now }
        requires no_zero { All (λ byte. byte ≢ 0) content.now }
        requires room { length self.old.bytes + length content.now + 8 < 2 ^ 29 }

        ensures has { IfOk result (λ index. HasText self.new.bytes index content.now × Contains self.new.used index) }
        ensures within { IfOk result (λ index. index < length self.new.bytes) }
        ensures known { (index : ℕ) → Contains self.old.used index → HasText self.old.bytes index content.now → (result ≡ Ok index) × (self.new ≡ self.old) }
        ensures stays { (index : ℕ) (text : List ℕ) → HasText self.old.bytes index text → HasText self.new.bytes index text }
        ensures grows { IfOk result (λ index. (self.new ≡ self.old) ⊎ Grows (λ entry. entry ≡ content.now ++ 0 ∷ []) self.old self.new index) }
        ensures err { OnErr result (self.new ≡ self.old) }
    {
        let index = self.entries.end();
        if content.is_empty() {
            return Ok(0);
        }
        if let Some(old) = self.entries.find(content) {
            return Ok(old);
        }
        self.entries.add(index, &[], content, &[0])?;
        Ok(index)
    }

    /// The heap's bytes. Each index in use holds a text, and no text stands at two of them.
    pub fn bytes(&self) -> &[u8]
        ensures bytes { result.now ≡ self.now.bytes }
        ensures holds { HoldsEach HasText self.now }
        ensures once { HoldsOnce HasText self.now }
    {
        self.entries.bytes.as_slice()
    }
}

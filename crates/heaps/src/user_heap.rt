//! The heap of user strings, `#US` (ECMA-335 II.24.2.4).
ghost use Rattle.std.specs.Prelude.{◌≡◌, ℕ, ◌+◌, ◌%◌, ◌<◌, ◌^◌, ◌∷◌, ◌⊎◌, ◌↔◌, List, [], Ok, length, Contains, IsTrue, IfOk, OnErr};
ghost use Rattle.heaps.specs.Content.{HasUnits};
ghost use Rattle.heaps.specs.Heap.{HoldsEach, HoldsOnce, Grows};
ghost use Rattle.heaps.specs.Written.{HasWrittenUnits, IsUnitsEntry, IsLastByte, IsSpecial};

use crate::entries::Entries;
use il_base::NoMemory;
use std::alloc::Global;
use std::marker::Model;

/// Texts of UTF-16 units, each at one index. Contracts see its bytes, and the indexes that are in use.
#[derive(Drop)]
pub struct UserHeap {
    entries: Entries,
}

impl Model for UserHeap {
    ghost use Rattle.std.specs.Prelude.{◌<◌, length};
    ghost use Rattle.heaps.specs.Heap.{Heap};

    ghost Value = { Heap };

    ghost use Rattle.heaps.specs.Written.{HasWrittenUnits};
    ghost use Rattle.heaps.specs.Filled.{IsFilled, indexes};

    ghost view = { λ h. record { bytes = h.entries.bytes; used = indexes h.entries.chains.places } };

    ghost invariant = { λ h. IsFilled HasWrittenUnits h.entries.bytes h.entries.chains × (0 < length h.entries.bytes) };
}

impl UserHeap {
    /// The heap without texts. Index 0 has an entry that holds none.
    pub fn new(alloc: Global) -> Result<UserHeap, NoMemory>
        ensures { IfOk result (λ h. h ≡ record { bytes = 0 ∷ []; used = [] }) }
    {
        let entries = Entries::new(alloc, &[0])?;
        Ok(UserHeap { entries })
    }

    /// The index of a text, given as whole units of two bytes, the low one first: the old index where
    /// the text is there, and else that of a new entry at the end. A text that is there takes no
    /// memory. After want of memory the heap is as it was.
    pub fn add(&mut self, content: &[u8]) -> Result<u32, NoMemory>
        requires whole { length content.now % 2 ≡ 0 }
        requires room { length self.old.bytes + length content.now + 8 < 2 ^ 29 }

        ensures has { IfOk result (λ index. HasUnits self.new.bytes index content.now × Contains self.new.used index) }
        ensures within { IfOk result (λ index. index < length self.new.bytes) }
        ensures known { (index : ℕ) → Contains self.old.used index → HasUnits self.old.bytes index content.now → (result ≡ Ok index) × (self.new ≡ self.old) }
        ensures stays { (index : ℕ) (units : List ℕ) → HasUnits self.old.bytes index units → HasUnits self.new.bytes index units }
        ensures grows { IfOk result (λ index. (self.new ≡ self.old) ⊎ Grows (IsUnitsEntry content.now) self.old self.new index) }
        ensures err { OnErr result (self.new ≡ self.old) }
    {
        let index = self.entries.end();
        if let Some(old) = self.entries.find(content) {
            return Ok(old);
        }
        let last = last_byte(content);
        self.entries.add_counted(index, content, &[last])?;
        Ok(index)
    }

    /// The heap's bytes. Each index in use holds a text, with the shortest spelling of its length and
    /// the last byte that belongs to its units, and no text stands at two of them.
    pub fn bytes(&self) -> &[u8]
        ensures bytes { result.now ≡ self.now.bytes }
        ensures holds { HoldsEach HasWrittenUnits self.now }
        ensures once { HoldsOnce HasUnits self.now }
    {
        self.entries.bytes.as_slice()
    }
}

// The last byte of the units' entry.
fn last_byte(units: &[u8]) -> u8
    ensures { IsLastByte units.now result }
{
    let mut rest = units;
    while let [low, high, more @ ..] = rest {
        if is_special(*low, *high) {
            return 1;
        }
        rest = more;
    }
    0
}

// Whether the unit of these two bytes needs handling beyond that of 8-bit encodings.
fn is_special(low: u8, high: u8) -> bool
    ensures { IsTrue result ↔ IsSpecial low high }
{
    high != 0 || matches!(low, 0x01..=0x08 | 0x0E..=0x1F | 0x27 | 0x2D | 0x7F)
}

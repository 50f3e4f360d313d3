ghost use Rattle.std.specs.Prelude.{◌≡◌, ◌↔◌, IsTrue, IfOk, slice_index};
ghost use Rattle.name_numbers.specs.Texts.{text_in, text_hash, front_at, AreHashes, mix};

use il_base::NoMemory;
use std::alloc::Global;
use std::marker::Model;

/// A heap of strings with the hash of the text at each of its bytes, so that a text is looked up by its hash without being read.
#[derive(Drop)]
pub struct TextHashes<'a> {
    heap: &'a [u8],
    hashes: Vec<u32>,
}

impl<'a> Model for TextHashes<'a> {
    ghost use Rattle.std.specs.Prelude.{ℕ, List};
    ghost use Rattle.name_numbers.specs.Texts.{AreHashes};

    ghost Value = { List ℕ };

    ghost view = { λ it. it.heap.now };

    ghost invariant = { λ it. AreHashes it.heap.now 0 it.hashes.items };
}

impl<'a> TextHashes<'a> {
    /// The hashes of a heap's texts, in one sweep from its end. They take four bytes for each of the heap's.
    pub fn new(alloc: Global, heap: &'a [u8]) -> Result<TextHashes<'a>, NoMemory>
        ensures { IfOk result (λ it. it ≡ heap.now) }
    {
        let hashes = hashes_of(alloc, heap)?;
        Ok(TextHashes { heap, hashes })
    }

    /// The hash of the text at an index.
    pub fn hash_at(&self, at: u32) -> u32
        ensures { result ≡ text_hash (text_in self.now at) }
    {
        if at == 0 {
            return 0;
        }
        number_at(&self.hashes, at as usize)
    }

    /// Whether one text stands at two indexes. They are compared byte by byte, unless the index is one.
    pub fn is_same(&self, one: u32, other: u32) -> bool
        ensures { IsTrue result ↔ (text_in self.now one ≡ text_in self.now other) }
    {
        if one == other {
            return true;
        }
        if one == 0 {
            return byte_at(self.heap, other as usize) == 0;
        }
        if other == 0 {
            return byte_at(self.heap, one as usize) == 0;
        }
        are_same(self.heap, one as usize, other as usize)
    }
}

/// The byte at a place, or 0 past the end.
fn byte_at(heap: &[u8], at: usize) -> u8
    ensures { result ≡ slice_index heap.now at }
{
    match heap.get(at) {
        Some(byte) => *byte,
        None => 0,
    }
}

/// The number at a place, or 0 past the end.
fn number_at(numbers: &[u32], at: usize) -> u32
    ensures { result ≡ slice_index numbers.now at }
{
    match numbers.get(at) {
        Some(number) => *number,
        None => 0,
    }
}

/// Whether the same bytes stand from two places on, up to a zero.
fn are_same(heap: &[u8], mut one: usize, mut other: usize) -> bool
    ensures { IsTrue result ↔ (front_at heap.now one ≡ front_at heap.now other) }
{
    while byte_at(heap, one) == byte_at(heap, other) {
        if byte_at(heap, one) == 0 {
            return true;
        }
        one += 1;
        other += 1;
    }
    false
}

/// For each byte of a heap the hash of the bytes from it on, up to a zero.
fn hashes_of(alloc: Global, heap: &[u8]) -> Result<Vec<u32>, NoMemory>
    ensures { IfOk result (λ hashes. AreHashes heap.now 0 hashes.items) }
{
    let mut hashes = Vec::from_elem(alloc, 0, heap.len())?;
    let mut hash = 0;
    let mut at = heap.len();
    while 0 < at {
        at -= 1;
        hash = if heap[at] == 0 {
            0
        } else {
            mix(hash, heap[at])
        };
        hashes[at] = hash;
    }
    Ok(hashes)
}

/// A step of FNV-1 at 32 bits.
#[tactic(auto, unfolding(crate::specs::Texts::mix))]
fn mix(hash: u32, byte: u8) -> u32
    ensures { result ≡ mix hash byte }
{
    hash.wrapping_mul(0x0100_0193) ^ u32::from(byte)
}

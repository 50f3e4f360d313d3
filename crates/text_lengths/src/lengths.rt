ghost use Rattle.std.specs.Prelude.{◌≡◌, ◌-◌, ◌^◌, ℕ, List, min, IfOk, length, slice_index};
ghost use Rattle.heaps.specs.Content.{HasText};
ghost use Rattle.text_lengths.specs.Lengths.{AreLengths};

use il_base::NoMemory;
use std::alloc::Global;
use std::marker::Model;

/// A heap of strings with the length of the text at each of its bytes, so that a length is known without reading the text.
#[derive(Drop)]
pub struct TextLengths<'a> {
    heap: &'a [u8],
    lengths: Vec<u32>,
}

impl<'a> Model for TextLengths<'a> {
    ghost use Rattle.std.specs.Prelude.{ℕ, List};
    ghost use Rattle.text_lengths.specs.Lengths.{AreLengths};

    ghost Value = { List ℕ };

    ghost view = { λ it. it.heap.now };

    ghost invariant = { λ it. AreLengths it.heap.now 0 it.lengths.items };
}

impl<'a> TextLengths<'a> {
    /// The lengths of a heap's texts, in one sweep from its end. They take four bytes for each of the heap's.
    pub fn new(alloc: Global, heap: &'a [u8]) -> Result<TextLengths<'a>, NoMemory>
        ensures { IfOk result (λ it. it ≡ heap.now) }
    {
        let lengths = lengths_of(alloc, heap)?;
        Ok(TextLengths { heap, lengths })
    }

    /// How many bytes the text at an index has, or the last number of 32 bits where it has more. Index 0 is the empty text.
    pub fn length_at(&self, at: u32) -> u32
        ensures { (text : List ℕ) → HasText self.now at text → result ≡ min (length text) (2 ^ 32 - 1) }
    {
        if at == 0 {
            return 0;
        }
        number_at(&self.lengths, at as usize)
    }
}

/// The number at a place, or 0 past the end.
fn number_at(numbers: &[u32], at: usize) -> u32
    ensures { result ≡ slice_index numbers.now at }
{
    match numbers.get(at) {
        Some(number) => *number,
        None => 0,
    }
}

/// For each byte of a heap how many bytes stand from it on, up to a zero.
fn lengths_of(alloc: Global, heap: &[u8]) -> Result<Vec<u32>, NoMemory>
    ensures { IfOk result (λ lengths. AreLengths heap.now 0 lengths.items) }
{
    let mut lengths = Vec::from_elem(alloc, 0, heap.len())?;
    let mut many = 0u32;
    let mut at = heap.len();
    while 0 < at {
        at -= 1;
        many = if heap[at] == 0 {
            0
        } else {
            many.saturating_add(1)
        };
        lengths[at] = many;
    }
    Ok(lengths)
}

ghost use Rattle.std.specs.Prelude.{◌≡◌, ◌<◌, ◌↔◌, ◌^◌, ℕ, List, IsTrue, IfOk, length};
ghost use Rattle.heaps.specs.Content.{HasText};

use crate::sweep::marks_of;
use il_base::NoMemory;
use std::alloc::Global;
use std::marker::Model;

/// A heap of strings with a mark at each byte where a text stands: asked for every cell that names a text, where reading
/// the text itself would take as long as it is.
#[derive(Debug, Drop)]
pub struct TextPlaces<'a> {
    heap: &'a [u8],
    marks: Vec<bool>,
}

impl<'a> Model for TextPlaces<'a> {
    ghost use Rattle.std.specs.Prelude.{ℕ, List};
    ghost use Rattle.text_places.specs.Standing.{AreMarked};

    ghost Value = { List ℕ };

    ghost view = { λ it. it.heap.now };

    ghost invariant = { λ it. AreMarked it.heap.now 0 it.marks.items };
}

impl<'a> TextPlaces<'a> {
    /// Marks the bytes of a heap, in one sweep from its end.
    pub fn new(alloc: Global, heap: &'a [u8]) -> Result<TextPlaces<'a>, NoMemory>
        ensures { IfOk result (λ it. it ≡ heap.now) }
    {
        let marks = marks_of(alloc, heap)?;
        Ok(TextPlaces { heap, marks })
    }

    /// Whether a text stands at an index. Index 0 is the empty text, also where the heap has no bytes.
    pub fn has_text(&self, at: u32) -> bool
        ensures { IsTrue result ↔ ((text : List ℕ) × HasText self.now at text) }
    {
        if at == 0 {
            return true;
        }
        match self.marks.get(at as usize) {
            Some(mark) => *mark,
            None => false,
        }
    }
}

ghost use Rattle.std.specs.Prelude.{◌≡◌, ◌<◌, ◌≤◌, ◌↔◌, ℕ, ◌+◌, IsTrue, IfOk, length, slice_index};
ghost use Rattle.text_places.specs.Standing.{AreMarked, BeginsAt, GoesOn};

use il_base::NoMemory;
use std::alloc::Global;
use std::str;

/// A mark for each byte of a heap: whether a text stands there. A text stands at a zero byte, and at a whole character
/// before a place where one stands.
pub(crate) fn marks_of(alloc: Global, heap: &[u8]) -> Result<Vec<bool>, NoMemory>
    ensures { IfOk result (λ marks. AreMarked heap.now 0 marks.items) }
{
    let mut marks = Vec::from_elem(alloc, false, heap.len())?;
    // Where the next character begins, or the heap's end.
    let mut next = heap.len();
    let mut at = heap.len();
    while 0 < at {
        at -= 1;
        marks[at] = stands_at(heap, at, next, &marks);
        if !goes_on(heap[at]) {
            next = at;
        }
    }
    Ok(marks)
}

/// Whether a byte goes on with a character that began before it.
fn goes_on(byte: u8) -> bool
    ensures { IsTrue result ↔ GoesOn byte }
{
    (128..192).contains(&byte)
}

/// Whether a text stands at a place, where the next character begins at `next` and the places from there on are marked.
fn stands_at(heap: &[u8], at: usize, next: usize, marks: &[bool]) -> bool
    requires order { at < next }
    requires within { next ≤ length heap.now }
    requires between { (k : ℕ) → at < k → k < next → GoesOn (slice_index heap.now k) }
    requires begins { next < length heap.now → GoesOn (slice_index heap.now next) → ⊥ }
    requires marked { AreMarked heap.now (at + 1) marks.now }
    ensures { IsTrue result ↔ BeginsAt heap.now at }
{
    if heap[at] == 0 {
        return true;
    }
    if next == heap.len() || !marks[next] {
        return false;
    }
    match str::from_utf8(&heap[at..next]) {
        Ok(_) => true,
        Err(_) => false,
    }
}

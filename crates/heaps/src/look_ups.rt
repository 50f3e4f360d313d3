//! The content at an index of a heap's bytes (ECMA-335 II.24.2.3 to II.24.2.5). No look-up takes
//! memory.
ghost use Rattle.std.specs.Prelude.{◌≡◌, ◌≢◌, ◌<◌, List, ℕ, length, slice_index, IfSome, IfNone};
ghost use Rattle.heaps.specs.Content.{BeginsText, HasText, HasBlob, HasUnits, HasGuid};

use il_base::read_packed;

/// The text at an index of `#Strings`, or None where no text is there: the index is past the heap, no
/// zero byte follows, or the bytes before it aren't UTF-8.
pub fn string_at(heap: &[u8], at: u32) -> Option<&str>
    ensures found { IfSome result (λ text. HasText heap.now at text.now) }
    ensures none { IfNone result ((text : List ℕ) → HasText heap.now at text → ⊥) }
{
    if at == 0 {
        return Some("");
    }
    let at = at as usize;
    if heap.len() <= at {
        return None;
    }
    let (_, bytes) = heap.split_at(at);
    text_of(bytes)
}

// The text that the bytes begin with.
fn text_of(bytes: &[u8]) -> Option<&str>
    ensures found { IfSome result (λ text. BeginsText bytes.now text.now) }
    ensures none { IfNone result ((text : List ℕ) → BeginsText bytes.now text → ⊥) }
{
    let end = first_zero(bytes)?;
    match std::str::from_utf8(&bytes[..end]) {
        Ok(text) => Some(text),
        Err(_) => None,
    }
}

// The place of the first zero byte.
fn first_zero(bytes: &[u8]) -> Option<usize>
    ensures found { IfSome result (λ n. (n < length bytes.now) × (slice_index bytes.now n ≡ 0)) }
    ensures before { IfSome result (λ n. (k : ℕ) → k < n → slice_index bytes.now k ≢ 0) }
    ensures none { IfNone result ((k : ℕ) → k < length bytes.now → slice_index bytes.now k ≢ 0) }
{
    for (i, byte) in bytes.iter().enumerate() {
        if *byte == 0 {
            return Some(i);
        }
    }
    None
}

/// The blob at an index of `#Blob`, or None where no blob is there: no packed length stands at the
/// index, or the heap ends before that many bytes behind it.
pub fn blob_at(heap: &[u8], at: u32) -> Option<&[u8]>
    ensures found { IfSome result (λ blob. HasBlob heap.now at blob.now) }
    ensures none { IfNone result ((blob : List ℕ) → HasBlob heap.now at blob → ⊥) }
{
    if at == 0 {
        return Some(&[]);
    }
    let at = at as usize;
    let (len, count) = read_packed(heap, at)?;
    let start = at + count;
    heap.get(start..start + len as usize)
}

/// The units of the text at an index of `#US`, two bytes each and the low one first, or None where no
/// text is there: no blob is there, or one of an even number of bytes. The last byte isn't looked at.
pub fn user_at(heap: &[u8], at: u32) -> Option<&[u8]>
    ensures found { IfSome result (λ units. HasUnits heap.now at units.now) }
    ensures none { IfNone result ((units : List ℕ) → HasUnits heap.now at units → ⊥) }
{
    let (_, units) = blob_at(heap, at)?.split_last()?;
    if units.len() % 2 == 0 {
        Some(units)
    } else {
        None
    }
}

/// The identifier of 16 bytes at an index of `#GUID`, counted from 1, or None where the heap ends
/// before it or the index is 0.
pub fn guid_at(heap: &[u8], at: u32) -> Option<&[u8]>
    ensures found { IfSome result (λ id. HasGuid heap.now at id.now) }
    ensures none { IfNone result ((id : List ℕ) → HasGuid heap.now at id → ⊥) }
{
    if at == 0 {
        return None;
    }
    let start = (at as usize - 1) * 16;
    if heap.len() < start + 16 {
        return None;
    }
    Some(&heap[start..start + 16])
}

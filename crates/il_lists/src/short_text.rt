ghost use Rattle.std.specs.Prelude.{◌≡◌, ◌≤◌, length, take, IsUtf8};

use std::marker::Model;
use std::str;

/// The most bytes that a short text holds: as many as fit in three words beside its length and a tag.
pub(crate) const MOST: usize = 22;

/// A UTF-8 text of at most `MOST` bytes, which lie in the value itself. Contracts see it as the list of its bytes.
#[derive(Debug, Drop)]
pub(crate) struct ShortText {
    len: u8,
    bytes: [u8; MOST],
}

impl Model for ShortText {
    ghost use Rattle.std.specs.Prelude.{List, ℕ, ◌≤◌, take, IsUtf8};

    ghost Value = { List ℕ };

    ghost view = { λ t. take t.len t.bytes };

    ghost invariant = { λ t. (t.len ≤ 22) × ∥ IsUtf8 (take t.len t.bytes) ∥₁ };
}

impl ShortText {
    /// A copy of `s`, which must fit.
    pub(crate) fn new(s: &str) -> ShortText
        requires { length s.now ≤ 22 }
        ensures { result ≡ s.now }
    {
        let mut bytes = [0; MOST];
        if s.is_empty() {
            return ShortText { len: 0, bytes };
        }
        bytes[..s.len()].copy_from_slice(s.as_bytes());
        ShortText {
            len: s.len() as u8,
            bytes,
        }
    }

    /// Lends the text.
    pub(crate) fn as_str(&self) -> &str
        ensures { result.now ≡ self.now }
    {
        // Its first `len` bytes are a text's.
        unsafe { str::from_utf8_unchecked(&self.bytes[..self.len as usize]) }
    }
}

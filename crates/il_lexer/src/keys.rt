//! Keys of texts: the last eight bytes as one number, which is all of a text of at most eight bytes.

ghost use Rattle.std.specs.Prelude.{◌≡◌, ◌<◌, ◌↔◌, IsTrue};
ghost use Rattle.il_lexer.specs.WordKeys.{key_more, key_from, slot_of};

use crate::bytes::is_same;

/// What spreads the keys of the words, so that each has a slot of its own.
const MULTIPLIER: u64 = 14411597528387888075;

/// The key of a text with one byte more.
pub(crate) fn key_more(key: u64, byte: u8) -> u64
    ensures { result ≡ key_more key byte }
{
    key % 0x100_0000_0000_0000 * 0x100 + byte as u64
}

/// The key of a text.
pub(crate) fn key_of(text: &[u8]) -> u64
    ensures { result ≡ key_from 0 text.now }
{
    let mut key = 0;
    for byte in text {
        key = key_more(key, *byte);
    }
    key
}

/// The slot of a text with this key and first byte. No two words have one slot.
pub(crate) fn slot_of(key: u64, first: u8) -> u64
    ensures value { result ≡ slot_of key first }
    ensures below { result < 4096 }
{
    key.wrapping_add(first as u64).wrapping_mul(MULTIPLIER) / 0x10_0000_0000_0000
}

/// Whether two texts of one key are the same: their last eight bytes are, where their lengths are.
pub(crate) fn is_same_keyed(known: &[u8], text: &[u8]) -> bool
    requires { key_from 0 known.now ≡ key_from 0 text.now }
    ensures { IsTrue result ↔ (known.now ≡ text.now) }
{
    if known.len() != text.len() {
        return false;
    }
    if text.len() <= 8 {
        return true;
    }
    let front = text.len() - 8;
    is_same(&known[..front], &text[..front])
}

//! The front of some bytes and what stands behind it.

ghost use Rattle.std.specs.Prelude.{◌≡◌, ◌-◌, ◌≤◌, ◌↔◌, IsTrue, length, drop};
ghost use Rattle.il_lexer.specs.Classes.{first_is, first_passes, is_digit, is_hex};

use crate::classes::{is_digit, is_hex};

/// The bytes behind the first `n`.
pub fn behind(bytes: &[u8], n: usize) -> &[u8]
    requires { n ≤ length bytes.now }
    ensures value { result.now ≡ drop n bytes.now }
    ensures len { length result.now ≡ length bytes.now - n }
{
    &bytes[n..]
}

/// Whether `byte` stands at `n`.
pub fn stands_at(bytes: &[u8], n: usize, byte: u8) -> bool
    ensures { result ≡ first_is byte (drop n bytes.now) }
{
    n < bytes.len() && bytes[n] == byte
}

/// Whether a decimal digit stands at `n`.
pub fn digit_at(bytes: &[u8], n: usize) -> bool
    ensures { result ≡ first_passes is_digit (drop n bytes.now) }
{
    n < bytes.len() && is_digit(bytes[n])
}

/// Whether a hexadecimal digit stands at `n`.
pub fn hex_at(bytes: &[u8], n: usize) -> bool
    ensures { result ≡ first_passes is_hex (drop n bytes.now) }
{
    n < bytes.len() && is_hex(bytes[n])
}

/// Whether two texts are the same.
pub fn is_same(known: &[u8], text: &[u8]) -> bool
    ensures { IsTrue result ↔ (known.now ≡ text.now) }
{
    if known.len() != text.len() {
        return false;
    }
    for k in 0..known.len() {
        if known[k] != text[k] {
            return false;
        }
    }
    true
}

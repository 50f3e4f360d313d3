//! The hash of a type's name. That of a short name at the top level of this assembly tells the name: no other name has it, so none
//! need be compared.
ghost use Rattle.std.specs.Prelude.{◌≡◌, ◌≤◌, ◌↔◌, [], Some, None, length, IsTrue, IfSome, MatchOption};
ghost use Rattle.image_tokens.specs.NameHashes.{name_hash, number_of, short_in, short_text, spread};

use type_terms::equality::is_same_name;
use type_terms::hashing::{START, mix_name};
use type_terms::{Scope, TypeId, TypeName};

/// How many bytes a short name has at most.
const MOST: usize = 7;

/// The hashes from here on don't tell names.
const OTHERS: u64 = 1 << 63;

/// An odd number whose bits look random.
const FACTOR: u64 = 0x9E37_79B9_7F4A_7C15;

/// The hash of a name.
#[tactic(auto, unfolding(crate::specs::NameHashes::name_hash))]
pub fn hash_name(name: &TypeName) -> u64
    ensures { result ≡ name_hash name.now }
{
    match short_text(name) {
        Some(text) => spread(number_of(text)),
        None => OTHERS + mix_name(START, name) % OTHERS,
    }
}

/// Whether two names with this hash are equal.
pub fn are_same(a: &TypeName, b: &TypeName, hash: u64) -> bool
    requires first { hash ≡ name_hash a.now }
    requires second { hash ≡ name_hash b.now }
    ensures { IsTrue result ↔ (a.now ≡ b.now) }
{
    hash < OTHERS || is_same_name(a, b)
}

/// The text of a short name.
fn short_text(name: &TypeName) -> Option<&[u8]>
    ensures is { MatchOption result (short_text name.now ≡ None) (λ text. short_text name.now ≡ Some text.now) }
    ensures short { IfSome result (λ text. length text.now ≤ 7) }
{
    match name.scope {
        Scope::Here => match name.path.as_slice() {
            [id] => short_in(id),
            _ => None,
        },
        Scope::Extern(_) => None,
    }
}

/// The text of a short name in no space.
fn short_in(id: &TypeId) -> Option<&[u8]>
    ensures is { MatchOption result (short_in id.now.space id.now.name ≡ None) (λ text. short_in id.now.space id.now.name ≡ Some text.now) }
    ensures short { IfSome result (λ text. length text.now ≤ 7) }
{
    if id.space.is_empty() {
        if_short(id.name.as_bytes())
    } else {
        None
    }
}

/// A text that is short.
fn if_short(text: &[u8]) -> Option<&[u8]>
    ensures is { MatchOption result (short_in [] text.now ≡ None) (λ short. short_in [] text.now ≡ Some short.now) }
    ensures short { IfSome result (λ short. length short.now ≤ 7) }
{
    if text.len() <= MOST { Some(text) } else { None }
}

/// A text as a number: 1, and then its bytes as digits to the base 256.
#[tactic(auto, unfolding(crate::specs::NameHashes::number_of))]
fn number_of(text: &[u8]) -> u64
    requires { length text.now ≤ 7 }
    ensures { result ≡ number_of text.now }
{
    let mut number: u64 = 1;
    for byte in text {
        number = number * 256 + u64::from(*byte);
    }
    number
}

/// Another number for each below 2^62. The last digit isn't multiplied: names that differ in it alone, as numbered names do, stand near one another in
/// a table.
#[tactic(auto, unfolding(crate::specs::NameHashes::spread))]
fn spread(number: u64) -> u64
    ensures { result ≡ spread number }
{
    let first = (number / 256).wrapping_mul(FACTOR) % (1 << 54);
    first * 256 + number % 256
}

//! Names that begin with an identifier: their bytes and their key, found in one pass.

ghost use Rattle.std.specs.Prelude.{◌≡◌, ◌+◌, ◌<◌, ◌≤◌, ◌&&◌, true, false, Some, None, length, take, drop, IfSome, MatchOption};
ghost use Rattle.il_lexer.specs.Classes.{first_is, first_passes, is_id_start, is_id_part};
ghost use Rattle.il_lexer.specs.Runs.{front, run_of};
ghost use Rattle.il_lexer.specs.Spellings.{name_length, dotted_part};
ghost use Rattle.il_lexer.specs.WordKeys.{key_from};

use crate::bytes::stands_at;
use crate::classes::{is_id_part, is_id_start};
use crate::keys::{key_more, key_of};
use crate::spellings::name_length;

/// A front of some bytes: its length and its key.
#[derive(Clone, Copy, Drop)]
pub(crate) struct Front {
    pub length: usize,
    pub key: u64,
}

/// The identifier at the front.
pub(crate) fn first_id(rest: &[u8]) -> Front
    requires { first_passes is_id_start rest.now ≡ true }
    ensures long { result.length ≡ front is_id_part rest.now }
    ensures fits { (0 < result.length) × (result.length ≤ length rest.now) }
    ensures key { result.key ≡ key_from 0 (take result.length rest.now) }
{
    id_from(rest, longer(rest, Front { length: 0, key: 0 }))
}

/// The front `one` with the bytes behind it that go on in an identifier. Most identifiers end within eight bytes, which
/// are looked at in turn without a loop.
#[inline(always)]
pub(crate) fn id_from(rest: &[u8], one: Front) -> Front
    requires within { one.length ≤ length rest.now }
    requires key { one.key ≡ key_from 0 (take one.length rest.now) }
    ensures long { result.length ≡ one.length + front is_id_part (drop one.length rest.now) }
    ensures fits { result.length ≤ length rest.now }
    ensures key { result.key ≡ key_from 0 (take result.length rest.now) }
{
    if rest.len() < 9 {
        return id_behind(rest, one);
    }
    let Some(two) = one_on(rest, one) else {
        return one;
    };
    let Some(three) = one_on(rest, two) else {
        return two;
    };
    let Some(four) = one_on(rest, three) else {
        return three;
    };
    let Some(five) = one_on(rest, four) else {
        return four;
    };
    let Some(six) = one_on(rest, five) else {
        return five;
    };
    let Some(seven) = one_on(rest, six) else {
        return six;
    };
    let Some(eight) = one_on(rest, seven) else {
        return seven;
    };
    id_behind(rest, eight)
}

// A front with the byte behind it, where that goes on in an identifier.
#[tactic(auto, using(crate::proofs::IdFronts::part_more, crate::proofs::IdFronts::part_none))]
fn one_on(rest: &[u8], start: Front) -> Option<Front>
    requires within { start.length ≤ length rest.now }
    requires key { start.key ≡ key_from 0 (take start.length rest.now) }
    ensures long { MatchOption result (front is_id_part (drop start.length rest.now) ≡ 0) (λ f. f.length + front is_id_part (drop f.length rest.now) ≡ start.length + front is_id_part (drop start.length rest.now)) }
    ensures fits { IfSome result (λ f. f.length ≤ length rest.now) }
    ensures key { IfSome result (λ f. f.key ≡ key_from 0 (take f.length rest.now)) }
{
    if part_at(rest, start.length) {
        Some(longer(rest, start))
    } else {
        None
    }
}

/// The name that begins with an identifier, of which `first` is the whole.
pub(crate) fn keyed_name(rest: &[u8], first: Front) -> Option<Front>
    requires starts { first_passes is_id_start rest.now ≡ true }
    requires long { first.length ≡ front is_id_part rest.now }
    requires key { first.key ≡ key_from 0 (take first.length rest.now) }
    ensures name { MatchOption result (name_length rest.now ≡ None) (λ f. name_length rest.now ≡ Some f.length) }
    ensures key { IfSome result (λ f. f.key ≡ key_from 0 (take f.length rest.now)) }
    ensures fits { IfSome result (λ f. (0 < f.length) × (f.length ≤ length rest.now)) }
{
    let name = dotted_ids(rest, first);
    if !quote_follows(rest, name.length) {
        return Some(name);
    }
    let length = name_length(rest)?;
    Some(Front {
        length,
        key: key_of(&rest[..length]),
    })
}

// An identifier with those behind it that dots join to it.
#[inline(never)]
fn dotted_ids(rest: &[u8], first: Front) -> Front
    requires starts { first_passes is_id_start rest.now ≡ true }
    requires long { first.length ≡ front is_id_part rest.now }
    requires key { first.key ≡ key_from 0 (take first.length rest.now) }
    ensures name { name_length rest.now ≡ Some (result.length + (run_of dotted_part (drop result.length rest.now)).bytes) }
    ensures ends { (first_is 46 (drop result.length rest.now) && first_passes is_id_start (drop (result.length + 1) rest.now)) ≡ false }
    ensures fits { (0 < result.length) × (result.length ≤ length rest.now) }
    ensures key { result.key ≡ key_from 0 (take result.length rest.now) }
{
    let mut name = first;
    while id_follows(rest, name.length) {
        name = id_behind(rest, longer(rest, name));
    }
    name
}

/// A front with the byte behind it.
pub(crate) fn longer(rest: &[u8], start: Front) -> Front
    requires within { start.length < length rest.now }
    requires key { start.key ≡ key_from 0 (take start.length rest.now) }
    ensures long { result.length ≡ start.length + 1 }
    ensures key { result.key ≡ key_from 0 (take result.length rest.now) }
{
    Front {
        length: start.length + 1,
        key: key_more(start.key, rest[start.length]),
    }
}

// A front with the bytes behind it that go on in an identifier.
fn id_behind(rest: &[u8], start: Front) -> Front
    requires within { start.length ≤ length rest.now }
    requires key { start.key ≡ key_from 0 (take start.length rest.now) }
    ensures long { result.length ≡ start.length + front is_id_part (drop start.length rest.now) }
    ensures fits { result.length ≤ length rest.now }
    ensures key { result.key ≡ key_from 0 (take result.length rest.now) }
{
    let mut now = start;
    while part_at(rest, now.length) {
        now = longer(rest, now);
    }
    now
}

// Whether a byte that goes on in an identifier stands at `n`.
fn part_at(bytes: &[u8], n: usize) -> bool
    ensures { result ≡ first_passes is_id_part (drop n bytes.now) }
{
    n < bytes.len() && is_id_part(bytes[n])
}

/// Whether an identifier begins at `n`.
pub(crate) fn id_at(bytes: &[u8], n: usize) -> bool
    ensures { result ≡ first_passes is_id_start (drop n bytes.now) }
{
    n < bytes.len() && is_id_start(bytes[n])
}

// Whether a dot and an identifier stand at `n`.
fn id_follows(bytes: &[u8], n: usize) -> bool
    requires { n ≤ length bytes.now }
    ensures { result ≡ (first_is 46 (drop n bytes.now) && first_passes is_id_start (drop (n + 1) bytes.now)) }
{
    stands_at(bytes, n, b'.') && id_at(bytes, n + 1)
}

// Whether a dot and a single quote stand at `n`.
fn quote_follows(bytes: &[u8], n: usize) -> bool
    requires { n ≤ length bytes.now }
    ensures { result ≡ (first_is 46 (drop n bytes.now) && first_is 39 (drop (n + 1) bytes.now)) }
{
    stands_at(bytes, n, b'.') && stands_at(bytes, n + 1, b'\'')
}

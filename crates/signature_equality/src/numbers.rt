ghost use Rattle.std.specs.Prelude.{◌≡◌};
ghost use Rattle.std.specs.Option.{option_map};
ghost use Rattle.signature_equality.specs.Walking.{same_byte, same_number, token_at, same_signed, same_owner, same_each, same_counted};

use crate::Numbering;
use crate::pair::Pair;
use sig_codec::{byte_at, number_at, signed_at, token_of_coded};

/// One byte at the front of both.
#[tactic(auto, unfolding(crate::specs::Walking::same_byte))]
pub(crate) fn same_byte(at: Pair<'_>) -> Option<Pair<'_>>
    ensures { option_map (λ x. (x.a.now, x.b.now)) result ≡ same_byte (at.entry.a.now, at.entry.b.now) }
{
    let (x, a) = byte_at(at.a)?;
    let (y, b) = byte_at(at.b)?;
    if x == y { Some(Pair { a, b }) } else { None }
}

/// One packed number at the front of both (ECMA-335 II.23.2).
#[tactic(auto, unfolding(crate::specs::Walking::same_number))]
pub(crate) fn same_number(at: Pair<'_>) -> Option<Pair<'_>>
    ensures { option_map (λ x. (x.a.now, x.b.now)) result ≡ same_number (at.entry.a.now, at.entry.b.now) }
{
    let (x, a) = number_at(at.a)?;
    let (y, b) = number_at(at.b)?;
    if x == y { Some(Pair { a, b }) } else { None }
}

/// One packed signed number at the front of both.
#[tactic(auto, unfolding(crate::specs::Walking::same_signed))]
fn same_signed(at: Pair<'_>) -> Option<Pair<'_>>
    ensures { option_map (λ x. (x.a.now, x.b.now)) result ≡ same_signed (at.entry.a.now, at.entry.b.now) }
{
    let (x, a) = signed_at(at.a)?;
    let (y, b) = signed_at(at.b)?;
    if x == y { Some(Pair { a, b }) } else { None }
}

/// The coded token at the front of a signature (ECMA-335 II.23.2.8), and the bytes behind it.
#[tactic(auto, unfolding(crate::specs::Walking::token_at))]
fn token_at(bytes: &[u8]) -> Option<(u32, &[u8])>
    ensures { option_map (λ x. (x.0, x.1.now)) result ≡ token_at bytes.now }
{
    let (number, rest) = number_at(bytes)?;
    Some((token_of_coded(number)?, rest))
}

/// Tokens of one owner at the front of both.
#[tactic(auto, unfolding(crate::specs::Walking::same_owner))]
pub(crate) fn same_owner<'a, N: Numbering>(numbers: &N, at: Pair<'a>) -> Option<Pair<'a>>
    ensures { option_map (λ x. (x.a.now, x.b.now)) result ≡ same_owner (N.canon numbers.now) (at.entry.a.now, at.entry.b.now) }
{
    let (x, a) = token_at(at.a)?;
    let (y, b) = token_at(at.b)?;
    if numbers.is_same(x, y) {
        Some(Pair { a, b })
    } else {
        None
    }
}

/// As many packed numbers at the front of both, each the same.
#[tactic(auto, unfolding(crate::specs::Walking::same_counted))]
pub(crate) fn same_sizes(at: Pair<'_>) -> Option<Pair<'_>>
    ensures { option_map (λ x. (x.a.now, x.b.now)) result ≡ same_counted same_number (at.entry.a.now, at.entry.b.now) }
{
    let (count, a) = number_at(at.a)?;
    let (other, b) = number_at(at.b)?;
    if count == other {
        each_size(count, Pair { a, b })
    } else {
        None
    }
}

/// So many packed numbers at the front of both, each the same.
fn each_size(count: u32, at: Pair<'_>) -> Option<Pair<'_>>
    ensures { option_map (λ x. (x.a.now, x.b.now)) result ≡ same_each same_number count (at.entry.a.now, at.entry.b.now) }
{
    let mut at = at;
    for _ in 0..count {
        at = same_number(at)?;
    }
    Some(at)
}

/// As many packed signed numbers at the front of both, each the same.
#[tactic(auto, unfolding(crate::specs::Walking::same_counted))]
pub(crate) fn same_bounds(at: Pair<'_>) -> Option<Pair<'_>>
    ensures { option_map (λ x. (x.a.now, x.b.now)) result ≡ same_counted same_signed (at.entry.a.now, at.entry.b.now) }
{
    let (count, a) = number_at(at.a)?;
    let (other, b) = number_at(at.b)?;
    if count == other {
        each_bound(count, Pair { a, b })
    } else {
        None
    }
}

/// So many packed signed numbers at the front of both, each the same.
fn each_bound(count: u32, at: Pair<'_>) -> Option<Pair<'_>>
    ensures { option_map (λ x. (x.a.now, x.b.now)) result ≡ same_each same_signed count (at.entry.a.now, at.entry.b.now) }
{
    let mut at = at;
    for _ in 0..count {
        at = same_signed(at)?;
    }
    Some(at)
}

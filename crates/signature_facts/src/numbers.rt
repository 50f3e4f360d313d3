ghost use Rattle.std.specs.Prelude.{◌≡◌};
ghost use Rattle.std.specs.Option.{option_map};
ghost use Rattle.type_terms.specs.Hashing.{mix, mix_bound};
ghost use Rattle.sig_codec.specs.Reading.{number_at, signed_at};
ghost use Rattle.signature_facts.specs.Scanning.{mixed_at, counted_at, shape_at};

use crate::Facts;
use crate::facts::{joined, listed, ranked};
use sig_codec::{number_at, signed_at};
use type_terms::hashing::mix;

/// A count of at most `limit`, and so many packed numbers.
#[tactic(auto, unfolding(crate::specs::Scanning::counted_at))]
pub(crate) fn sizes_at(limit: u32, bytes: &[u8]) -> Option<(Facts, &[u8])>
    ensures { option_map (λ x. (x.0, x.1.now)) result ≡ counted_at number_at mix limit bytes.now }
{
    let (count, rest) = number_at(bytes)?;
    if count > limit {
        return None;
    }
    let (hash, rest) = each_size_at(count, rest)?;
    Some((listed(count, hash), rest))
}

/// The hash of so many packed numbers.
fn each_size_at(count: u32, bytes: &[u8]) -> Option<(u64, &[u8])>
    ensures { option_map (λ x. (x.0, x.1.now)) result ≡ mixed_at number_at mix 0 count bytes.now }
{
    let mut hash = 0;
    let mut rest = bytes;
    for _ in 0..count {
        let (number, after) = number_at(rest)?;
        hash = mix(hash, u64::from(number));
        rest = after;
    }
    Some((hash, rest))
}

/// A count of at most `limit`, and so many packed signed numbers.
#[tactic(auto, unfolding(crate::specs::Scanning::counted_at))]
pub(crate) fn bounds_at(limit: u32, bytes: &[u8]) -> Option<(Facts, &[u8])>
    ensures { option_map (λ x. (x.0, x.1.now)) result ≡ counted_at signed_at mix_bound limit bytes.now }
{
    let (count, rest) = number_at(bytes)?;
    if count > limit {
        return None;
    }
    let (hash, rest) = each_bound_at(count, rest)?;
    Some((listed(count, hash), rest))
}

/// The hash of so many packed signed numbers.
fn each_bound_at(count: u32, bytes: &[u8]) -> Option<(u64, &[u8])>
    ensures { option_map (λ x. (x.0, x.1.now)) result ≡ mixed_at signed_at mix_bound 0 count bytes.now }
{
    let mut hash = 0;
    let mut rest = bytes;
    for _ in 0..count {
        let (number, after) = signed_at(rest)?;
        hash = mix(hash, u64::from(number.unsigned_abs()));
        rest = after;
    }
    Some((hash, rest))
}

/// The facts of the rank, the sizes and the lower bounds of the array at the front (ECMA-335 II.23.2.13), and the bytes behind
/// them. None where none are spelled there.
#[tactic(auto, unfolding(crate::specs::Scanning::shape_at))]
pub fn shape_at(bytes: &[u8]) -> Option<(Facts, &[u8])>
    ensures { option_map (λ x. (x.0, x.1.now)) result ≡ shape_at bytes.now }
{
    let (rank, rest) = number_at(bytes)?;
    if rank == 0 {
        return None;
    }
    let (sizes, rest) = sizes_at(rank, rest)?;
    let (lower, rest) = bounds_at(rank, rest)?;
    Some((ranked(rank, joined(sizes, lower)), rest))
}

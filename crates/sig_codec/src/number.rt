ghost use Rattle.std.specs.Prelude.{◌≡◌};
ghost use Rattle.std.specs.Option.{option_map};
ghost use Rattle.sig_codec.specs.Reading.{Gives, byte_at, number_at, signed_at, each_at, counted_at};

use crate::stop::Stop;
use il_base::{Items, Numbers, Signed, read_packed, read_packed_signed};
use std::alloc::Global;

/// The byte at the front, and the bytes behind it. None where there is none.
pub fn byte_at(bytes: &[u8]) -> Option<(u8, &[u8])>
    ensures { option_map (λ x. (x.0, x.1.now)) result ≡ byte_at bytes.now }
{
    match bytes {
        [] => None,
        [byte, rest @ ..] => Some((*byte, rest)),
    }
}

/// The packed number at the front (ECMA-335 II.23.2), and the bytes behind it. None where none is spelled there.
pub fn number_at(bytes: &[u8]) -> Option<(u32, &[u8])>
    ensures { option_map (λ x. (x.0, x.1.now)) result ≡ number_at bytes.now }
{
    let (number, count) = read_packed(bytes, 0)?;
    Some((number, &bytes[count..]))
}

/// The packed signed number at the front (ECMA-335 II.23.2), and the bytes behind it. None where none is spelled there.
pub fn signed_at(bytes: &[u8]) -> Option<(i32, &[u8])>
    ensures { option_map (λ x. (x.0, x.1.now)) result ≡ signed_at bytes.now }
{
    let (number, count) = read_packed_signed(bytes, 0)?;
    Some((number, &bytes[count..]))
}

/// A count of at most `limit`, and so many packed numbers.
#[tactic(auto, unfolding(crate::specs::Reading::counted_at))]
pub(crate) fn numbers_at(alloc: Global, limit: u32, bytes: &[u8]) -> Result<(Numbers, &[u8]), Stop>
    ensures { Gives (λ x. (x.0, x.1.now)) result (counted_at number_at limit bytes.now) }
{
    let (count, rest) = number_at(bytes).ok_or(Stop::Unspelled)?;
    if count > limit {
        return Err(Stop::Unspelled);
    }
    each_number_at(alloc, count, rest)
}

/// So many packed numbers.
fn each_number_at(alloc: Global, count: u32, bytes: &[u8]) -> Result<(Numbers, &[u8]), Stop>
    ensures { Gives (λ x. (x.0, x.1.now)) result (each_at number_at count bytes.now) }
{
    let mut numbers = Items::new(alloc);
    let mut rest = bytes;
    for _ in 0..count {
        let (number, after) = number_at(rest).ok_or(Stop::Unspelled)?;
        numbers.push(number)?;
        rest = after;
    }
    Ok((numbers, rest))
}

/// A count of at most `limit`, and so many packed signed numbers.
#[tactic(auto, unfolding(crate::specs::Reading::counted_at))]
pub(crate) fn signed_numbers_at(
    alloc: Global,
    limit: u32,
    bytes: &[u8],
) -> Result<(Signed, &[u8]), Stop>
    ensures { Gives (λ x. (x.0, x.1.now)) result (counted_at signed_at limit bytes.now) }
{
    let (count, rest) = number_at(bytes).ok_or(Stop::Unspelled)?;
    if count > limit {
        return Err(Stop::Unspelled);
    }
    each_signed_at(alloc, count, rest)
}

/// So many packed signed numbers.
fn each_signed_at(alloc: Global, count: u32, bytes: &[u8]) -> Result<(Signed, &[u8]), Stop>
    ensures { Gives (λ x. (x.0, x.1.now)) result (each_at signed_at count bytes.now) }
{
    let mut numbers = Items::new(alloc);
    let mut rest = bytes;
    for _ in 0..count {
        let (number, after) = signed_at(rest).ok_or(Stop::Unspelled)?;
        numbers.push(number)?;
        rest = after;
    }
    Ok((numbers, rest))
}

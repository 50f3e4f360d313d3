ghost use Rattle.std.specs.Prelude.{◌≡◌};
ghost use Rattle.std.specs.Option.{option_map};
ghost use Rattle.sig_codec.specs.Reading.{generics_at, is_at_sentinel};
ghost use Rattle.signature_facts.specs.Scanning.{counts_at, is_generic, property_count_at};

use sig_codec::{byte_at, number_at};

/// Whether the byte that parts the fixed parameters from the others stands at the front (ECMA-335 II.23.2.2).
pub fn is_at_sentinel(bytes: &[u8]) -> bool
    ensures { result ≡ is_at_sentinel bytes.now }
{
    matches!(bytes, [0x41, ..])
}

/// Whether a method that begins with this byte is generic (ECMA-335 II.23.2.1). None where no method begins so.
#[tactic(auto, unfolding(crate::specs::Scanning::is_generic, sig_codec::specs::Reading::convention_of))]
pub fn is_generic(byte: u8) -> Option<bool>
    ensures { result ≡ is_generic byte }
{
    match byte % 16 {
        0x0 | 0x5 => {}
        _ => return None,
    }
    match byte / 16 {
        0x0 | 0x2 | 0x6 => Some(false),
        0x1 | 0x3 | 0x7 => Some(true),
        _ => None,
    }
}

/// The number of generic parameters, which stands there where a method is generic.
#[tactic(auto, unfolding(sig_codec::specs::Reading::generics_at))]
fn generics_at(generic: bool, bytes: &[u8]) -> Option<(u32, &[u8])>
    ensures { option_map (λ x. (x.0, x.1.now)) result ≡ generics_at generic bytes.now }
{
    if !generic {
        return Some((0, bytes));
    }
    let (number, rest) = number_at(bytes)?;
    if number == 0 {
        return None;
    }
    Some((number, rest))
}

/// The number of generic parameters of the method at the front, the number of its parameters, and the bytes behind these
/// (ECMA-335 II.23.2.1). None where no method begins so.
#[tactic(auto, unfolding(crate::specs::Scanning::counts_at))]
pub fn counts_at(bytes: &[u8]) -> Option<(u32, u32, &[u8])>
    ensures { option_map (λ x. (x.0, x.1, x.2.now)) result ≡ counts_at bytes.now }
{
    let (byte, rest) = byte_at(bytes)?;
    let (generic, rest) = generics_at(is_generic(byte)?, rest)?;
    let (count, rest) = number_at(rest)?;
    Some((generic, count, rest))
}

/// The number of parameters of the property at the front, and the bytes behind it (ECMA-335 II.23.2.5). None where no property
/// begins so.
#[tactic(auto, unfolding(crate::specs::Scanning::property_count_at))]
pub fn property_count_at(bytes: &[u8]) -> Option<(u32, &[u8])>
    ensures { option_map (λ x. (x.0, x.1.now)) result ≡ property_count_at bytes.now }
{
    match bytes {
        [0x08, rest @ ..] | [0x28, rest @ ..] => number_at(rest),
        _ => None,
    }
}

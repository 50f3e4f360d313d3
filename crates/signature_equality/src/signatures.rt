ghost use Rattle.std.specs.Prelude.{◌≡◌};
ghost use Rattle.std.specs.Option.{option_map};
ghost use Rattle.signature_equality.specs.Walking.{same_field, same_locals, same_head, same_params, same_method, same_property_head, same_property, same_type};

use crate::Numbering;
use crate::numbers::same_byte;
use crate::pair::Pair;
use crate::types::{same_all, same_list, same_type, same_types};
use sig_codec::byte_at;
use signature_facts::{counts_at, property_count_at};
use type_terms::MAX_DEPTH;

/// One field (ECMA-335 II.23.2.4).
#[tactic(auto, unfolding(crate::specs::Walking::same_field))]
pub(crate) fn same_field<'a, N: Numbering>(numbers: &N, at: Pair<'a>) -> Option<Pair<'a>>
    ensures { option_map (λ x. (x.a.now, x.b.now)) result ≡ same_field (N.canon numbers.now) (at.entry.a.now, at.entry.b.now) }
{
    let at = same_byte(at)?;
    same_type(numbers, MAX_DEPTH, at)
}

/// The same locals, or the same arguments of a generic method (ECMA-335 II.23.2.6, II.23.2.15).
#[tactic(auto, unfolding(crate::specs::Walking::same_locals))]
pub(crate) fn same_locals<'a, N: Numbering>(numbers: &N, at: Pair<'a>) -> Option<Pair<'a>>
    ensures { option_map (λ x. (x.a.now, x.b.now)) result ≡ same_locals (N.canon numbers.now) (at.entry.a.now, at.entry.b.now) }
{
    let at = same_byte(at)?;
    same_list(numbers, MAX_DEPTH, at)
}

/// One first byte, one number of generic parameters and one of parameters (ECMA-335 II.23.2.1); the latter.
#[tactic(auto, unfolding(crate::specs::Walking::same_head))]
fn same_head(at: Pair<'_>) -> Option<(u32, Pair<'_>)>
    ensures { option_map (λ x. (x.0, x.1.a.now, x.1.b.now)) result ≡ same_head (at.entry.a.now, at.entry.b.now) }
{
    let (byte, _) = byte_at(at.a)?;
    let (other, _) = byte_at(at.b)?;
    let (generic, count, a) = counts_at(at.a)?;
    let (other_generic, other_count, b) = counts_at(at.b)?;
    if byte == other && generic == other_generic && count == other_count {
        Some((count, Pair { a, b }))
    } else {
        None
    }
}

/// So many parameters, with a sentinel before the same one of both or none (ECMA-335 II.23.2.2).
#[tactic(auto, unfolding(crate::specs::Walking::same_params))]
fn same_params<'a, N: Numbering>(numbers: &N, count: u32, at: Pair<'a>) -> Option<Pair<'a>>
    ensures { option_map (λ x. (x.a.now, x.b.now)) result ≡ same_params (same_type (N.canon numbers.now) 100) count (at.entry.a.now, at.entry.b.now) }
{
    let (more, at) = same_types(numbers, MAX_DEPTH, count, at)?;
    if more == 0 {
        return Some(at);
    }
    let (_, a) = byte_at(at.a)?;
    let (_, b) = byte_at(at.b)?;
    same_all(numbers, MAX_DEPTH, more, Pair { a, b })
}

/// One method (ECMA-335 II.23.2.1, II.23.2.2).
#[tactic(auto, unfolding(crate::specs::Walking::same_method))]
pub(crate) fn same_method<'a, N: Numbering>(numbers: &N, at: Pair<'a>) -> Option<Pair<'a>>
    ensures { option_map (λ x. (x.a.now, x.b.now)) result ≡ same_method (N.canon numbers.now) (at.entry.a.now, at.entry.b.now) }
{
    let (count, at) = same_head(at)?;
    let at = same_type(numbers, MAX_DEPTH, at)?;
    same_params(numbers, count, at)
}

/// One first byte and one number of parameters (ECMA-335 II.23.2.5); the latter.
#[tactic(auto, unfolding(crate::specs::Walking::same_property_head))]
fn same_property_head(at: Pair<'_>) -> Option<(u32, Pair<'_>)>
    ensures { option_map (λ x. (x.0, x.1.a.now, x.1.b.now)) result ≡ same_property_head (at.entry.a.now, at.entry.b.now) }
{
    let (byte, _) = byte_at(at.a)?;
    let (other, _) = byte_at(at.b)?;
    let (count, a) = property_count_at(at.a)?;
    let (other_count, b) = property_count_at(at.b)?;
    if byte == other && count == other_count {
        Some((count, Pair { a, b }))
    } else {
        None
    }
}

/// One property (ECMA-335 II.23.2.5).
#[tactic(auto, unfolding(crate::specs::Walking::same_property))]
pub(crate) fn same_property<'a, N: Numbering>(numbers: &N, at: Pair<'a>) -> Option<Pair<'a>>
    ensures { option_map (λ x. (x.a.now, x.b.now)) result ≡ same_property (N.canon numbers.now) (at.entry.a.now, at.entry.b.now) }
{
    let (count, at) = same_property_head(at)?;
    let at = same_type(numbers, MAX_DEPTH, at)?;
    same_all(numbers, MAX_DEPTH, count, at)
}

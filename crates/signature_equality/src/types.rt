ghost use Rattle.std.specs.Prelude.{◌≡◌};
ghost use Rattle.std.specs.Option.{option_map};
ghost use Rattle.signature_equality.specs.Walking.{same_array, same_inst, same_mod, same_parts, same_type, same_types, same_all, same_list};

use crate::Numbering;
use crate::numbers::{same_bounds, same_byte, same_number, same_owner, same_sizes};
use crate::pair::Pair;
use sig_codec::{Element, byte_at, number_at};
use signature_facts::is_at_sentinel;

/// One type of at most `depth` at the front of both.
#[cycle(types)]
pub(crate) fn same_type<'a, N: Numbering>(numbers: &N, depth: u32, at: Pair<'a>) -> Option<Pair<'a>>
    ensures { option_map (λ x. (x.a.now, x.b.now)) result ≡ same_type (N.canon numbers.now) depth (at.entry.a.now, at.entry.b.now) }
{
    if depth == 0 {
        return None;
    }
    let (byte, a) = byte_at(at.a)?;
    let (other, b) = byte_at(at.b)?;
    if byte != other {
        return None;
    }
    same_parts(numbers, depth - 1, Element::of(byte)?, Pair { a, b })
}

/// The same parts behind one element.
#[cycle(types)]
fn same_parts<'a, N: Numbering>(
    numbers: &N,
    depth: u32,
    element: Element,
    at: Pair<'a>,
) -> Option<Pair<'a>>
    ensures { option_map (λ x. (x.a.now, x.b.now)) result ≡ same_parts (N.canon numbers.now) (same_type (N.canon numbers.now) depth) element (at.entry.a.now, at.entry.b.now) }
{
    match element {
        Element::Prim(_) => Some(at),
        Element::Pointer | Element::ByRef | Element::SzArray | Element::Pinned => {
            same_type(numbers, depth, at)
        }
        Element::Value | Element::Class => same_owner(numbers, at),
        Element::Var | Element::MVar => same_number(at),
        Element::Array => same_array(numbers, depth, at),
        Element::Inst => same_inst(numbers, depth, at),
        Element::Required | Element::Optional => same_mod(numbers, depth, at),
    }
}

/// One type and one shape at the front of both (ECMA-335 II.23.2.13).
#[cycle(types)]
#[tactic(auto, unfolding(crate::specs::Walking::same_array))]
fn same_array<'a, N: Numbering>(numbers: &N, depth: u32, at: Pair<'a>) -> Option<Pair<'a>>
    ensures { option_map (λ x. (x.a.now, x.b.now)) result ≡ same_array (same_type (N.canon numbers.now) depth) (at.entry.a.now, at.entry.b.now) }
{
    let at = same_type(numbers, depth, at)?;
    let at = same_number(at)?;
    same_bounds(same_sizes(at)?)
}

/// One generic type with the same arguments (ECMA-335 II.23.2.12).
#[cycle(types)]
#[tactic(auto, unfolding(crate::specs::Walking::same_inst))]
fn same_inst<'a, N: Numbering>(numbers: &N, depth: u32, at: Pair<'a>) -> Option<Pair<'a>>
    ensures { option_map (λ x. (x.a.now, x.b.now)) result ≡ same_inst (N.canon numbers.now) (same_type (N.canon numbers.now) depth) (at.entry.a.now, at.entry.b.now) }
{
    let at = same_byte(at)?;
    let at = same_owner(numbers, at)?;
    same_list(numbers, depth, at)
}

/// One modifier, and one type behind it (ECMA-335 II.23.2.7).
#[cycle(types)]
#[tactic(auto, unfolding(crate::specs::Walking::same_mod))]
fn same_mod<'a, N: Numbering>(numbers: &N, depth: u32, at: Pair<'a>) -> Option<Pair<'a>>
    ensures { option_map (λ x. (x.a.now, x.b.now)) result ≡ same_mod (N.canon numbers.now) (same_type (N.canon numbers.now) depth) (at.entry.a.now, at.entry.b.now) }
{
    let at = same_owner(numbers, at)?;
    same_type(numbers, depth, at)
}

/// As many types at the front of both, each the same.
#[cycle(types)]
#[tactic(auto, unfolding(crate::specs::Walking::same_list))]
pub(crate) fn same_list<'a, N: Numbering>(numbers: &N, depth: u32, at: Pair<'a>) -> Option<Pair<'a>>
    ensures { option_map (λ x. (x.a.now, x.b.now)) result ≡ same_list (same_type (N.canon numbers.now) depth) (at.entry.a.now, at.entry.b.now) }
{
    let (count, a) = number_at(at.a)?;
    let (other, b) = number_at(at.b)?;
    if count == other {
        same_all(numbers, depth, count, Pair { a, b })
    } else {
        None
    }
}

/// So many types at the front of both, each the same.
#[cycle(types)]
#[tactic(auto, unfolding(crate::specs::Walking::same_all))]
pub(crate) fn same_all<'a, N: Numbering>(
    numbers: &N,
    depth: u32,
    count: u32,
    at: Pair<'a>,
) -> Option<Pair<'a>>
    ensures { option_map (λ x. (x.a.now, x.b.now)) result ≡ same_all (same_type (N.canon numbers.now) depth) count (at.entry.a.now, at.entry.b.now) }
{
    let (more, at) = same_types(numbers, depth, count, at)?;
    if more == 0 { Some(at) } else { None }
}

/// Up to so many types at the front of both, each the same, and no more once a sentinel stands there; with how many more there
/// might have been.
#[cycle(types)]
pub(crate) fn same_types<'a, N: Numbering>(
    numbers: &N,
    depth: u32,
    count: u32,
    at: Pair<'a>,
) -> Option<(u32, Pair<'a>)>
    ensures { option_map (λ x. (x.0, x.1.a.now, x.1.b.now)) result ≡ same_types (same_type (N.canon numbers.now) depth) count (at.entry.a.now, at.entry.b.now) }
{
    let mut at = at;
    for done in 0..count {
        if is_at_sentinel(at.a) {
            return if is_at_sentinel(at.b) {
                Some((count - done, at))
            } else {
                None
            };
        }
        if is_at_sentinel(at.b) {
            return None;
        }
        at = same_type(numbers, depth, at)?;
    }
    Some((0, at))
}

ghost use Rattle.std.specs.Prelude.{◌≡◌};
ghost use Rattle.std.specs.Option.{option_map};
ghost use Rattle.signature_facts.specs.Scanning.{type_at, types_at, all_types_at, array_at, inst_at, modified_at, parts_at, boxed_at, named_at, numbered_at};

use crate::facts::{joined, leaf, mod_tag, node, prim_place};
use crate::first_bytes::is_at_sentinel;
use crate::names::{after_facts, declared_at, generic_at, owner_at};
use crate::numbers::shape_at;
use crate::{Facts, Owners};
use sig_codec::{Element, Left, byte_at, variable_at};

/// The facts of the type at the front, where it is at most `depth` deep and has no more nodes than are left.
#[cycle(types)]
pub(crate) fn type_at<'a, O: Owners>(
    map: &O,
    depth: u32,
    left: Left<'a>,
) -> Option<(Facts, Left<'a>)>
    ensures { option_map (λ x. (x.0, x.1.bytes.now, x.1.nodes)) result ≡ type_at (O.facts map.now) depth left.entry.bytes.now left.entry.nodes }
{
    if depth == 0 || left.nodes == 0 {
        return None;
    }
    let (byte, bytes) = byte_at(left.bytes)?;
    let element = Element::of(byte)?;
    let nodes = left.nodes - 1;
    parts_at(map, depth - 1, element, Left { bytes, nodes })
}

/// The facts of the type with this element at its front.
#[cycle(types)]
fn parts_at<'a, O: Owners>(
    map: &O,
    depth: u32,
    element: Element,
    left: Left<'a>,
) -> Option<(Facts, Left<'a>)>
    ensures { option_map (λ x. (x.0, x.1.bytes.now, x.1.nodes)) result ≡ parts_at (O.facts map.now) (type_at (O.facts map.now) depth) depth element left.entry.bytes.now left.entry.nodes }
{
    match element {
        Element::Prim(prim) => Some((node(leaf(prim_place(prim))), left)),
        Element::Pointer => boxed_at(map, depth, 0x0F, left),
        Element::ByRef => boxed_at(map, depth, 0x10, left),
        Element::SzArray => boxed_at(map, depth, 0x1D, left),
        Element::Pinned => boxed_at(map, depth, 0x45, left),
        Element::Value => named_at(map, 0x11, left),
        Element::Class => named_at(map, 0x12, left),
        Element::Var => numbered_at(0x13, left),
        Element::MVar => numbered_at(0x1E, left),
        Element::Array => array_at(map, depth, left),
        Element::Inst => inst_at(map, depth, left),
        Element::Required => modified_at(map, depth, true, left),
        Element::Optional => modified_at(map, depth, false, left),
    }
}

/// The facts of a type made of the one at the front.
#[cycle(types)]
#[tactic(auto, unfolding(crate::specs::Scanning::boxed_at))]
fn boxed_at<'a, O: Owners>(
    map: &O,
    depth: u32,
    tag: u64,
    left: Left<'a>,
) -> Option<(Facts, Left<'a>)>
    ensures { option_map (λ x. (x.0, x.1.bytes.now, x.1.nodes)) result ≡ boxed_at (type_at (O.facts map.now) depth) tag left.entry.bytes.now left.entry.nodes }
{
    let (of, left) = type_at(map, depth, left)?;
    Some((node(joined(leaf(tag), of)), left))
}

/// The facts of the class or value type at the front.
#[tactic(auto, unfolding(crate::specs::Scanning::named_at))]
fn named_at<'a, O: Owners>(map: &O, tag: u64, left: Left<'a>) -> Option<(Facts, Left<'a>)>
    ensures { option_map (λ x. (x.0, x.1.bytes.now, x.1.nodes)) result ≡ named_at (O.facts map.now) tag left.entry.bytes.now left.entry.nodes }
{
    let (name, bytes) = declared_at(map, left.bytes)?;
    Some((node(joined(leaf(tag), name)), Left { bytes, ..left }))
}

/// The facts of the generic parameter at the front.
#[tactic(auto, unfolding(crate::specs::Scanning::numbered_at))]
fn numbered_at(tag: u64, left: Left<'_>) -> Option<(Facts, Left<'_>)>
    ensures { option_map (λ x. (x.0, x.1.bytes.now, x.1.nodes)) result ≡ numbered_at tag left.entry.bytes.now left.entry.nodes }
{
    let (number, bytes) = variable_at(left.bytes)?;
    let facts = node(joined(leaf(tag), leaf(u64::from(number))));
    Some((facts, Left { bytes, ..left }))
}

/// The facts of the array at the front (ECMA-335 II.23.2.13).
#[cycle(types)]
#[tactic(auto, unfolding(crate::specs::Scanning::array_at))]
fn array_at<'a, O: Owners>(map: &O, depth: u32, left: Left<'a>) -> Option<(Facts, Left<'a>)>
    ensures { option_map (λ x. (x.0, x.1.bytes.now, x.1.nodes)) result ≡ array_at (type_at (O.facts map.now) depth) left.entry.bytes.now left.entry.nodes }
{
    let (of, left) = type_at(map, depth, left)?;
    let (shape, bytes) = shape_at(left.bytes)?;
    let facts = node(joined(joined(leaf(0x14), of), shape));
    Some((facts, Left { bytes, ..left }))
}

/// The facts of the generic type at the front, with its arguments (ECMA-335 II.23.2.12).
#[cycle(types)]
#[tactic(auto, unfolding(crate::specs::Scanning::inst_at))]
fn inst_at<'a, O: Owners>(map: &O, depth: u32, left: Left<'a>) -> Option<(Facts, Left<'a>)>
    ensures { option_map (λ x. (x.0, x.1.bytes.now, x.1.nodes)) result ≡ inst_at (O.facts map.now) (type_at (O.facts map.now) depth) left.entry.bytes.now left.entry.nodes }
{
    let (head, count, bytes) = generic_at(map, left.bytes)?;
    let left = Left { bytes, ..left };
    let (args, left) = all_types_at(map, depth, head, count, left)?;
    Some((node(args), left))
}

/// The facts of the type at the front behind its modifier (ECMA-335 II.23.2.7).
#[cycle(types)]
#[tactic(auto, unfolding(crate::specs::Scanning::modified_at))]
fn modified_at<'a, O: Owners>(
    map: &O,
    depth: u32,
    required: bool,
    left: Left<'a>,
) -> Option<(Facts, Left<'a>)>
    ensures { option_map (λ x. (x.0, x.1.bytes.now, x.1.nodes)) result ≡ modified_at (O.facts map.now) (type_at (O.facts map.now) depth) depth required left.entry.bytes.now left.entry.nodes }
{
    let (_, owner, bytes) = owner_at(map, left.bytes)?;
    let nodes = after_facts(owner.facts, depth, left.nodes)?;
    let (of, left) = type_at(map, depth, Left { bytes, nodes })?;
    let facts = node(joined(joined(leaf(mod_tag(required)), owner.facts), of));
    Some((facts, left))
}

/// So many types at the front, joined to what stands before them.
#[cycle(types)]
#[tactic(auto, unfolding(crate::specs::Scanning::all_types_at))]
pub(crate) fn all_types_at<'a, O: Owners>(
    map: &O,
    depth: u32,
    front: Facts,
    count: u32,
    left: Left<'a>,
) -> Option<(Facts, Left<'a>)>
    ensures { option_map (λ x. (x.0, x.1.bytes.now, x.1.nodes)) result ≡ all_types_at (type_at (O.facts map.now) depth) front count left.entry.bytes.now left.entry.nodes }
{
    let (facts, more, left) = types_at(map, depth, front, count, left)?;
    if more == 0 { Some((facts, left)) } else { None }
}

/// Up to so many types at the front, joined to what stands before them, and no more once a sentinel stands there; with how
/// many more there might have been.
#[cycle(types)]
pub(crate) fn types_at<'a, O: Owners>(
    map: &O,
    depth: u32,
    front: Facts,
    count: u32,
    left: Left<'a>,
) -> Option<(Facts, u32, Left<'a>)>
    ensures { option_map (λ x. (x.0, x.1, x.2.bytes.now, x.2.nodes)) result ≡ types_at (type_at (O.facts map.now) depth) front count left.entry.bytes.now left.entry.nodes }
{
    let mut front = front;
    let mut left = left;
    for done in 0..count {
        if is_at_sentinel(left.bytes) {
            return Some((front, count - done, left));
        }
        let (of, after) = type_at(map, depth, left)?;
        front = joined(front, of);
        left = after;
    }
    Some((front, 0, left))
}

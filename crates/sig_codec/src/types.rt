ghost use Rattle.std.specs.Prelude.{◌≡◌, ◌^◌, ◌<◌};
ghost use Rattle.sig_codec.specs.Reading.{Gives, type_at, types_at, all_types_at, array_at, inst_at, modified_at, parts_at, is_at_sentinel};

use crate::Namer;
use crate::boxing::{boxed_copy_and, boxed_three, boxed_two};
use crate::decoder::{Left, declared_at, generic_at, owner_at, shape_at, variable_at};
use crate::element::Element;
use crate::measure::after_owner;
use crate::number::byte_at;
use crate::stop::Stop;
use il_base::{Boxed, Items};
use std::alloc::Global;
use type_terms::{SigType, Types};

/// The type at the front, where it is at most `depth` deep and has no more nodes than are left.
#[cycle(types)]
pub(crate) fn type_at<'a, N: Namer>(
    alloc: Global,
    names: &N,
    depth: u32,
    left: Left<'a>,
) -> Result<(SigType, Left<'a>), Stop>
    ensures { Gives (λ x. (x.0, x.1.bytes.now, x.1.nodes)) result (type_at (N.owners names.now) depth left.entry.bytes.now left.entry.nodes) }
{
    if depth == 0 || left.nodes == 0 {
        return Err(Stop::Unspelled);
    }
    let (byte, bytes) = byte_at(left.bytes).ok_or(Stop::Unspelled)?;
    let element = Element::of(byte).ok_or(Stop::Unspelled)?;
    let nodes = left.nodes - 1;
    parts_at(alloc, names, depth - 1, element, Left { bytes, nodes })
}

/// The type with this element at its front.
#[cycle(types)]
fn parts_at<'a, N: Namer>(
    alloc: Global,
    names: &N,
    depth: u32,
    element: Element,
    left: Left<'a>,
) -> Result<(SigType, Left<'a>), Stop>
    ensures { Gives (λ x. (x.0, x.1.bytes.now, x.1.nodes)) result (parts_at (N.owners names.now) (type_at (N.owners names.now) depth) depth element left.entry.bytes.now left.entry.nodes) }
{
    match element {
        Element::Prim(prim) => Ok((SigType::Prim(prim), left)),
        Element::Pointer => {
            let (of, left) = boxed_at(alloc, names, depth, left)?;
            Ok((SigType::Pointer(of), left))
        }
        Element::ByRef => {
            let (of, left) = boxed_at(alloc, names, depth, left)?;
            Ok((SigType::ByRef(of), left))
        }
        Element::SzArray => {
            let (of, left) = boxed_at(alloc, names, depth, left)?;
            Ok((SigType::SzArray(of), left))
        }
        Element::Pinned => {
            let (of, left) = boxed_at(alloc, names, depth, left)?;
            Ok((SigType::Pinned(of), left))
        }
        Element::Value => {
            let (name, bytes) = declared_at(alloc, names, left.bytes)?;
            Ok((SigType::Value(name), Left { bytes, ..left }))
        }
        Element::Class => {
            let (name, bytes) = declared_at(alloc, names, left.bytes)?;
            Ok((SigType::Class(name), Left { bytes, ..left }))
        }
        Element::Var => {
            let (number, bytes) = variable_at(left.bytes).ok_or(Stop::Unspelled)?;
            Ok((SigType::Var(number), Left { bytes, ..left }))
        }
        Element::MVar => {
            let (number, bytes) = variable_at(left.bytes).ok_or(Stop::Unspelled)?;
            Ok((SigType::MVar(number), Left { bytes, ..left }))
        }
        Element::Array => array_at(alloc, names, depth, left),
        Element::Inst => inst_at(alloc, names, depth, left),
        Element::Required => modified_at(alloc, names, depth, true, left),
        Element::Optional => modified_at(alloc, names, depth, false, left),
    }
}

/// The type at the front, in a box.
#[cycle(types)]
fn boxed_at<'a, N: Namer>(
    alloc: Global,
    names: &N,
    depth: u32,
    left: Left<'a>,
) -> Result<(Boxed<SigType>, Left<'a>), Stop>
    ensures { Gives (λ x. (x.0, x.1.bytes.now, x.1.nodes)) result (type_at (N.owners names.now) depth left.entry.bytes.now left.entry.nodes) }
{
    let (of, left) = type_at(alloc, names, depth, left)?;
    let of = Boxed::new(alloc, of)?;
    Ok((of, left))
}

/// The array at the front (ECMA-335 II.23.2.13).
#[cycle(types)]
#[tactic(auto, unfolding(crate::specs::Reading::array_at))]
fn array_at<'a, N: Namer>(
    alloc: Global,
    names: &N,
    depth: u32,
    left: Left<'a>,
) -> Result<(SigType, Left<'a>), Stop>
    ensures { Gives (λ x. (x.0, x.1.bytes.now, x.1.nodes)) result (array_at (type_at (N.owners names.now) depth) left.entry.bytes.now left.entry.nodes) }
{
    let (of, left) = type_at(alloc, names, depth, left)?;
    let (shape, bytes) = shape_at(alloc, left.bytes)?;
    let (of, sizes, lower) = boxed_three(alloc, of, shape.sizes, shape.lower)?;
    let array = SigType::Array {
        of,
        rank: shape.rank,
        sizes,
        lower,
    };
    Ok((array, Left { bytes, ..left }))
}

/// The generic type at the front, with its arguments (ECMA-335 II.23.2.12).
#[cycle(types)]
#[tactic(auto, unfolding(crate::specs::Reading::inst_at))]
fn inst_at<'a, N: Namer>(
    alloc: Global,
    names: &N,
    depth: u32,
    left: Left<'a>,
) -> Result<(SigType, Left<'a>), Stop>
    ensures { Gives (λ x. (x.0, x.1.bytes.now, x.1.nodes)) result (inst_at (N.owners names.now) (type_at (N.owners names.now) depth) left.entry.bytes.now left.entry.nodes) }
{
    let (generic, bytes) = generic_at(alloc, names, left.bytes)?;
    let left = Left { bytes, ..left };
    let (args, left) = all_types_at(alloc, names, depth, generic.count, left)?;
    let (name, args) = boxed_two(alloc, generic.name, args)?;
    let inst = SigType::Inst {
        value: generic.value,
        name,
        args,
    };
    Ok((inst, left))
}

/// The type at the front behind its modifier (ECMA-335 II.23.2.7).
#[cycle(types)]
#[tactic(auto, unfolding(crate::specs::Reading::modified_at))]
fn modified_at<'a, N: Namer>(
    alloc: Global,
    names: &N,
    depth: u32,
    required: bool,
    left: Left<'a>,
) -> Result<(SigType, Left<'a>), Stop>
    ensures { Gives (λ x. (x.0, x.1.bytes.now, x.1.nodes)) result (modified_at (N.owners names.now) (type_at (N.owners names.now) depth) depth required left.entry.bytes.now left.entry.nodes) }
{
    let (_, owner, bytes) = owner_at(names, left.bytes).ok_or(Stop::Unspelled)?;
    let nodes = after_owner(owner, depth, left.nodes).ok_or(Stop::Unspelled)?;
    let (of, left) = type_at(alloc, names, depth, Left { bytes, nodes })?;
    let (by, of) = boxed_copy_and(alloc, owner, of)?;
    Ok((SigType::Mod { required, by, of }, left))
}

/// So many types at the front.
#[cycle(types)]
#[tactic(auto, unfolding(crate::specs::Reading::all_types_at))]
pub(crate) fn all_types_at<'a, N: Namer>(
    alloc: Global,
    names: &N,
    depth: u32,
    count: u32,
    left: Left<'a>,
) -> Result<(Types, Left<'a>), Stop>
    ensures { Gives (λ x. (x.0, x.1.bytes.now, x.1.nodes)) result (all_types_at (type_at (N.owners names.now) depth) count left.entry.bytes.now left.entry.nodes) }
{
    let (types, left) = types_at(alloc, names, depth, count, left)?;
    if (types.len() as u64) < u64::from(count) {
        return Err(Stop::Unspelled);
    }
    Ok((types, left))
}

/// Up to so many types at the front, and no more once a sentinel stands there.
#[cycle(types)]
pub(crate) fn types_at<'a, N: Namer>(
    alloc: Global,
    names: &N,
    depth: u32,
    count: u32,
    left: Left<'a>,
) -> Result<(Types, Left<'a>), Stop>
    ensures { Gives (λ x. (x.0, x.1.bytes.now, x.1.nodes)) result (types_at (type_at (N.owners names.now) depth) count left.entry.bytes.now left.entry.nodes) }
{
    let mut types = Items::new(alloc);
    let mut left = left;
    for _ in 0..count {
        if is_at_sentinel(left.bytes) {
            break;
        }
        let (of, after) = type_at(alloc, names, depth, left)?;
        types.push(of)?;
        left = after;
    }
    Ok((types, left))
}

/// Whether the byte that parts the fixed parameters from the others stands at the front (ECMA-335 II.23.2.2).
pub(crate) fn is_at_sentinel(bytes: &[u8]) -> bool
    ensures { result ≡ is_at_sentinel bytes.now }
{
    matches!(bytes, [0x41, ..])
}

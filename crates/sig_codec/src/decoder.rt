ghost use Rattle.std.specs.Prelude.{◌≡◌};
ghost use Rattle.std.specs.Option.{option_map};
ghost use Rattle.sig_codec.specs.Reading.{Gives, owner_at, declared_at, variable_at, shape_at, kind_at, generic_at};

use crate::Namer;
use crate::number::{byte_at, number_at, numbers_at, signed_numbers_at};
use crate::stop::Stop;
use crate::token::token_of_coded;
use il_base::{Copies, Numbers, Signed};
use std::alloc::Global;
use type_terms::{Owner, TypeName};

/// What is left to read: the bytes, and how many more nodes the value may have.
#[derive(Clone, Copy)]
pub struct Left<'a> {
    pub bytes: &'a [u8],
    pub nodes: u32,
}

/// The coded token at the front, the owner that it names, and the bytes behind it.
#[tactic(auto, unfolding(crate::specs::Reading::owner_at))]
pub(crate) fn owner_at<'n, 'a, N: Namer>(
    names: &'n N,
    bytes: &'a [u8],
) -> Option<(u32, &'n Owner, &'a [u8])>
    ensures { option_map (λ x. (x.0, x.1.now, x.2.now)) result ≡ owner_at (N.owners names.now) bytes.now }
{
    let (number, rest) = number_at(bytes)?;
    let token = token_of_coded(number)?;
    let owner = names.owner_of(token)?;
    Some((token, owner, rest))
}

/// The name of the class or value type at the front.
#[tactic(auto, unfolding(crate::specs::Reading::declared_at))]
pub(crate) fn declared_at<'a, N: Namer>(
    alloc: Global,
    names: &N,
    bytes: &'a [u8],
) -> Result<(TypeName, &'a [u8]), Stop>
    ensures { Gives (λ x. (x.0, x.1.now)) result (declared_at (N.owners names.now) bytes.now) }
{
    let (token, owner, rest) = owner_at(names, bytes).ok_or(Stop::Unspelled)?;
    match owner {
        Owner::Name(name) if token < 3 << 24 => {
            let name = name.copy(alloc)?;
            Ok((name, rest))
        }
        _ => Err(Stop::Unspelled),
    }
}

/// The number of the generic parameter at the front (ECMA-335 II.23.2.12), and the bytes behind it. None where no packed
/// number below 65,536 stands there.
#[tactic(auto, unfolding(crate::specs::Reading::variable_at))]
pub fn variable_at(bytes: &[u8]) -> Option<(u32, &[u8])>
    ensures { option_map (λ x. (x.0, x.1.now)) result ≡ variable_at bytes.now }
{
    let (number, rest) = number_at(bytes)?;
    if number < 1 << 16 {
        Some((number, rest))
    } else {
        None
    }
}

/// The shape of an array: its rank, its sizes and its lower bounds (ECMA-335 II.23.2.13).
#[derive(Drop)]
pub(crate) struct Shape {
    pub rank: u32,
    pub sizes: Numbers,
    pub lower: Signed,
}

/// The shape of the array at the front.
#[tactic(auto, unfolding(crate::specs::Reading::shape_at))]
pub(crate) fn shape_at(alloc: Global, bytes: &[u8]) -> Result<(Shape, &[u8]), Stop>
    ensures { Gives (λ x. (x.0.rank, x.0.sizes, x.0.lower, x.1.now)) result (shape_at bytes.now) }
{
    let (rank, rest) = number_at(bytes).ok_or(Stop::Unspelled)?;
    if rank == 0 {
        return Err(Stop::Unspelled);
    }
    let (sizes, rest) = numbers_at(alloc, rank, rest)?;
    let (lower, rest) = signed_numbers_at(alloc, rank, rest)?;
    Ok((Shape { rank, sizes, lower }, rest))
}

/// Whether the generic type at the front is a value type (ECMA-335 II.23.2.12), and the bytes behind that byte. None where
/// the byte is neither that of a class nor that of a value type.
pub fn kind_at(bytes: &[u8]) -> Option<(bool, &[u8])>
    ensures { option_map (λ x. (x.0, x.1.now)) result ≡ kind_at bytes.now }
{
    let (byte, rest) = byte_at(bytes)?;
    match byte {
        0x11 => Some((true, rest)),
        0x12 => Some((false, rest)),
        _ => None,
    }
}

/// A generic type before its arguments.
#[derive(Drop)]
pub(crate) struct Generic {
    pub value: bool,
    pub name: TypeName,
    pub count: u32,
}

/// The generic type at the front, up to its arguments.
#[tactic(auto, unfolding(crate::specs::Reading::generic_at))]
pub(crate) fn generic_at<'a, N: Namer>(
    alloc: Global,
    names: &N,
    bytes: &'a [u8],
) -> Result<(Generic, &'a [u8]), Stop>
    ensures { Gives (λ x. (x.0.value, x.0.name, x.0.count, x.1.now)) result (generic_at (N.owners names.now) bytes.now) }
{
    let (value, rest) = kind_at(bytes).ok_or(Stop::Unspelled)?;
    let (_, owner, rest) = owner_at(names, rest).ok_or(Stop::Unspelled)?;
    let (count, rest) = number_at(rest).ok_or(Stop::Unspelled)?;
    match owner {
        Owner::Name(name) if count > 0 => {
            let name = name.copy(alloc)?;
            Ok((Generic { value, name, count }, rest))
        }
        _ => Err(Stop::Unspelled),
    }
}

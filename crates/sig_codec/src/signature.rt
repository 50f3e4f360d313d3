ghost use Rattle.std.specs.Prelude.{◌≡◌};
ghost use Rattle.std.specs.Option.{option_map};
ghost use Rattle.sig_codec.specs.Reading.{Gives, convention_of, generics_at, params_at, type_at, whole_type, whole_field, whole_types, whole_locals, whole_instantiation, whole_method, whole_property, property_has_this};

use crate::decoder::Left;
use crate::number::{byte_at, number_at};
use crate::stop::Stop;
use crate::types::{all_types_at, type_at, types_at};
use crate::{MAX_NODES, Namer};
use std::alloc::Global;
use type_terms::{MAX_DEPTH, MethodSig, SigType, Types};

/// The type that the bytes spell, all of them (ECMA-335 II.23.2.14).
#[tactic(auto, unfolding(crate::specs::Reading::whole_type))]
pub(crate) fn whole_type<N: Namer>(alloc: Global, bytes: &[u8], names: &N) -> Result<SigType, Stop>
    ensures { Gives (λ x. x) result (whole_type (N.owners names.now) bytes.now) }
{
    let left = Left {
        bytes,
        nodes: MAX_NODES,
    };
    let (of, left) = type_at(alloc, names, MAX_DEPTH, left)?;
    if !left.bytes.is_empty() {
        return Err(Stop::Unspelled);
    }
    Ok(of)
}

/// The field that the bytes spell (ECMA-335 II.23.2.4).
#[tactic(auto, unfolding(crate::specs::Reading::whole_field))]
pub(crate) fn whole_field<N: Namer>(alloc: Global, bytes: &[u8], names: &N) -> Result<SigType, Stop>
    ensures { Gives (λ x. x) result (whole_field (N.owners names.now) bytes.now) }
{
    let (byte, rest) = byte_at(bytes).ok_or(Stop::Unspelled)?;
    if byte != 0x06 {
        return Err(Stop::Unspelled);
    }
    whole_type(alloc, rest, names)
}

/// A count and so many types, to the end.
#[tactic(auto, unfolding(crate::specs::Reading::whole_types))]
fn whole_types<N: Namer>(alloc: Global, bytes: &[u8], names: &N) -> Result<Types, Stop>
    ensures { Gives (λ x. x) result (whole_types (N.owners names.now) bytes.now) }
{
    let (count, bytes) = number_at(bytes).ok_or(Stop::Unspelled)?;
    let left = Left {
        bytes,
        nodes: MAX_NODES,
    };
    let (types, left) = all_types_at(alloc, names, MAX_DEPTH, count, left)?;
    if !left.bytes.is_empty() {
        return Err(Stop::Unspelled);
    }
    Ok(types)
}

/// The locals that the bytes spell (ECMA-335 II.23.2.6).
#[tactic(auto, unfolding(crate::specs::Reading::whole_locals))]
pub(crate) fn whole_locals<N: Namer>(alloc: Global, bytes: &[u8], names: &N) -> Result<Types, Stop>
    ensures { Gives (λ x. x) result (whole_locals (N.owners names.now) bytes.now) }
{
    let (byte, rest) = byte_at(bytes).ok_or(Stop::Unspelled)?;
    if byte != 0x07 {
        return Err(Stop::Unspelled);
    }
    whole_types(alloc, rest, names)
}

/// The arguments of a generic method that the bytes spell (ECMA-335 II.23.2.15).
#[tactic(auto, unfolding(crate::specs::Reading::whole_instantiation))]
pub(crate) fn whole_instantiation<N: Namer>(
    alloc: Global,
    bytes: &[u8],
    names: &N,
) -> Result<Types, Stop>
    ensures { Gives (λ x. x) result (whole_instantiation (N.owners names.now) bytes.now) }
{
    let (byte, rest) = byte_at(bytes).ok_or(Stop::Unspelled)?;
    if byte != 0x0A {
        return Err(Stop::Unspelled);
    }
    let types = whole_types(alloc, rest, names)?;
    if types.is_empty() {
        return Err(Stop::Unspelled);
    }
    Ok(types)
}

/// How a method is called, and whether it is generic (ECMA-335 II.23.2.1).
#[derive(Clone, Copy)]
struct Convention {
    vararg: bool,
    has_this: bool,
    explicit_this: bool,
    generic: bool,
}

impl Convention {
    /// What the first byte of a method says, or None where no method begins so.
    #[tactic(auto, unfolding(crate::specs::Reading::convention_of))]
    fn of(byte: u8) -> Option<Convention>
        ensures { option_map (λ x. (x.vararg, x.has_this, x.explicit_this, x.generic)) result ≡ convention_of byte }
    {
        let vararg = match byte % 16 {
            0x0 => false,
            0x5 => true,
            _ => return None,
        };
        let (has_this, explicit_this, generic) = match byte / 16 {
            0x0 => (false, false, false),
            0x1 => (false, false, true),
            0x2 => (true, false, false),
            0x3 => (true, false, true),
            0x6 => (true, true, false),
            0x7 => (true, true, true),
            _ => return None,
        };
        Some(Convention {
            vararg,
            has_this,
            explicit_this,
            generic,
        })
    }
}

/// The number of generic parameters, which stands there where a method is generic.
#[tactic(auto, unfolding(crate::specs::Reading::generics_at))]
fn generics_at(generic: bool, bytes: &[u8]) -> Option<(u32, &[u8])>
    ensures { option_map (λ x. (x.0, x.1.now)) result ≡ generics_at generic bytes.now }
{
    if !generic {
        return Some((0, bytes));
    }
    let (number, rest) = number_at(bytes)?;
    if number == 0 {
        return None;
    }
    Some((number, rest))
}

/// The parameters of a method.
#[derive(Drop)]
struct Params {
    all: Types,
    sentinel: Option<u32>,
}

/// So many parameters at the front, with a sentinel between them or none (ECMA-335 II.23.2.2).
#[tactic(auto, unfolding(crate::specs::Reading::params_at))]
fn params_at<'a, N: Namer>(
    alloc: Global,
    names: &N,
    count: u32,
    left: Left<'a>,
) -> Result<(Params, Left<'a>), Stop>
    ensures { Gives (λ x. (x.0.all, x.0.sentinel, x.1.bytes.now, x.1.nodes)) result (params_at (type_at (N.owners names.now) 100) count left.entry.bytes.now left.entry.nodes) }
{
    let (mut all, left) = types_at(alloc, names, MAX_DEPTH, count, left)?;
    if all.len() >= count as usize {
        let params = Params {
            all,
            sentinel: None,
        };
        return Ok((params, left));
    }
    let fixed = all.len() as u32;
    let (_, bytes) = byte_at(left.bytes).ok_or(Stop::Unspelled)?;
    let left = Left { bytes, ..left };
    let (others, left) = all_types_at(alloc, names, MAX_DEPTH, count - fixed, left)?;
    all.append(others)?;
    let params = Params {
        all,
        sentinel: Some(fixed),
    };
    Ok((params, left))
}

/// The method that the bytes spell (ECMA-335 II.23.2.1, II.23.2.2).
#[tactic(auto, unfolding(crate::specs::Reading::whole_method))]
pub(crate) fn whole_method<N: Namer>(
    alloc: Global,
    bytes: &[u8],
    names: &N,
) -> Result<MethodSig, Stop>
    ensures { Gives (λ x. x) result (whole_method (N.owners names.now) bytes.now) }
{
    let (byte, rest) = byte_at(bytes).ok_or(Stop::Unspelled)?;
    let call = Convention::of(byte).ok_or(Stop::Unspelled)?;
    let (generic, rest) = generics_at(call.generic, rest).ok_or(Stop::Unspelled)?;
    let (count, bytes) = number_at(rest).ok_or(Stop::Unspelled)?;
    let left = Left {
        bytes,
        nodes: MAX_NODES,
    };
    let (ret, left) = type_at(alloc, names, MAX_DEPTH, left)?;
    let (params, left) = params_at(alloc, names, count, left)?;
    if !left.bytes.is_empty() {
        return Err(Stop::Unspelled);
    }
    Ok(MethodSig {
        has_this: call.has_this,
        explicit_this: call.explicit_this,
        vararg: call.vararg,
        generic,
        ret,
        params: params.all,
        sentinel: params.sentinel,
    })
}

/// The property that the bytes spell (ECMA-335 II.23.2.5).
#[tactic(auto, unfolding(crate::specs::Reading::whole_property))]
pub(crate) fn whole_property<N: Namer>(
    alloc: Global,
    bytes: &[u8],
    names: &N,
) -> Result<MethodSig, Stop>
    ensures { Gives (λ x. x) result (whole_property (N.owners names.now) bytes.now) }
{
    let (byte, rest) = byte_at(bytes).ok_or(Stop::Unspelled)?;
    let has_this = property_has_this(byte).ok_or(Stop::Unspelled)?;
    let (count, bytes) = number_at(rest).ok_or(Stop::Unspelled)?;
    let left = Left {
        bytes,
        nodes: MAX_NODES,
    };
    let (ret, left) = type_at(alloc, names, MAX_DEPTH, left)?;
    let (params, left) = all_types_at(alloc, names, MAX_DEPTH, count, left)?;
    if !left.bytes.is_empty() {
        return Err(Stop::Unspelled);
    }
    Ok(MethodSig {
        has_this,
        explicit_this: false,
        vararg: false,
        generic: 0,
        ret,
        params,
        sentinel: None,
    })
}

/// Whether a property that begins with `byte` has a this, or None where none begins so.
fn property_has_this(byte: u8) -> Option<bool>
    ensures { result ≡ property_has_this byte }
{
    match byte {
        0x08 => Some(false),
        0x28 => Some(true),
        _ => None,
    }
}

ghost use Rattle.std.specs.Prelude.{◌≡◌};
ghost use Rattle.std.specs.Option.{option_map};
ghost use Rattle.assembly_tree.specs.DataSize.{primitive_size};
ghost use Rattle.field_data.specs.Walking.{kind_at, parts_at, token_at, sized};

use sig_codec::{Element, byte_at, number_at, token_of_coded};
use type_terms::Prim;

/// What decides the size of a type's values in data.
#[derive(Clone, Copy)]
pub enum DataKind {
    /// The width of a primitive type, in bytes.
    Bytes(u32),
    /// The layout of the value type that this token names.
    Value(u32),
    /// Nothing: there is no size.
    Sizeless,
}

/// What decides the size of the type at the front, where it is at most `depth` deep; None where no such type begins so.
#[cycle(kinds)]
pub(crate) fn kind_at(depth: u32, bytes: &[u8]) -> Option<DataKind>
    ensures { result ≡ kind_at depth bytes.now }
{
    if depth == 0 {
        return None;
    }
    let (byte, rest) = byte_at(bytes)?;
    let element = Element::of(byte)?;
    parts_at(depth - 1, element, rest)
}

/// The same of the type with this element at its front: modifiers count for nothing (II.23.2.7).
#[cycle(kinds)]
fn parts_at(depth: u32, element: Element, bytes: &[u8]) -> Option<DataKind>
    ensures { result ≡ parts_at (kind_at depth) element bytes.now }
{
    match element {
        Element::Prim(prim) => Some(primitive_kind(prim)),
        Element::Value => {
            let (token, _) = token_at(bytes)?;
            Some(DataKind::Value(token))
        }
        Element::Required | Element::Optional => {
            let (_, rest) = token_at(bytes)?;
            kind_at(depth, rest)
        }
        _ => Some(DataKind::Sizeless),
    }
}

/// The token at the front, and the bytes behind it.
#[tactic(auto, unfolding(crate::specs::Walking::token_at))]
fn token_at(bytes: &[u8]) -> Option<(u32, &[u8])>
    ensures { option_map (λ x. (x.0, x.1.now)) result ≡ token_at bytes.now }
{
    let (number, rest) = number_at(bytes)?;
    let token = token_of_coded(number)?;
    Some((token, rest))
}

/// The width of a primitive type, where it has one in data (II.16.3).
fn primitive_kind(prim: Prim) -> DataKind
    ensures { result ≡ sized (primitive_size prim) }
{
    match prim {
        Prim::Bool | Prim::I1 | Prim::U1 => DataKind::Bytes(1),
        Prim::Char | Prim::I2 | Prim::U2 => DataKind::Bytes(2),
        Prim::I4 | Prim::U4 | Prim::R4 => DataKind::Bytes(4),
        Prim::I8 | Prim::U8 | Prim::R8 => DataKind::Bytes(8),
        Prim::Void | Prim::Str | Prim::Object | Prim::TypedRef | Prim::NInt | Prim::NUint =>
            DataKind::Sizeless,
    }
}

ghost use Rattle.std.specs.Prelude.{◌≡◌, ℕ, List};
ghost use Rattle.signature_tokens.specs.Collecting.{Gives, token_at, behind_sentinel, types_at, list_at, array_at, inst_at, modified_at, numbered_at, parts_at, type_at};

use crate::stop::Stop;
use il_base::Numbers;
use sig_codec::{Element, byte_at, number_at, token_of_coded, variable_at};
use signature_facts::shape_at;

/// The tokens of the type at the front are put into the list; the bytes behind it.
#[cycle(types)]
pub(crate) fn type_at<'a>(depth: u32, bytes: &'a [u8], into: &mut Numbers) -> Result<&'a [u8], Stop>
    ensures { Gives (λ rest. (into.new, rest.now)) result (type_at depth into.old bytes.now) }
{
    if depth == 0 {
        return Err(Stop::Unspelled);
    }
    let (byte, rest) = byte_at(bytes).ok_or(Stop::Unspelled)?;
    let element = Element::of(byte).ok_or(Stop::Unspelled)?;
    parts_at(depth - 1, element, rest, into)
}

/// Those of the parts behind an element.
#[cycle(types)]
fn parts_at<'a>(
    depth: u32,
    element: Element,
    bytes: &'a [u8],
    into: &mut Numbers,
) -> Result<&'a [u8], Stop>
    ensures { Gives (λ rest. (into.new, rest.now)) result (parts_at (type_at depth) element into.old bytes.now) }
{
    match element {
        Element::Prim(_) => Ok(bytes),
        Element::Pointer | Element::ByRef | Element::SzArray | Element::Pinned => {
            type_at(depth, bytes, into)
        }
        Element::Value | Element::Class => token_at(bytes, into),
        Element::Var | Element::MVar => numbered_at(bytes),
        Element::Array => array_at(depth, bytes, into),
        Element::Inst => inst_at(depth, bytes, into),
        Element::Required | Element::Optional => modified_at(depth, bytes, into),
    }
}

/// The coded token at the front.
#[tactic(auto, unfolding(crate::specs::Collecting::token_at))]
fn token_at<'a>(bytes: &'a [u8], into: &mut Numbers) -> Result<&'a [u8], Stop>
    ensures { Gives (λ rest. (into.new, rest.now)) result (token_at into.old bytes.now) }
{
    let (number, rest) = number_at(bytes).ok_or(Stop::Unspelled)?;
    let token = token_of_coded(number).ok_or(Stop::Unspelled)?;
    into.push(token)?;
    Ok(rest)
}

/// The bytes behind the generic parameter at the front, which has no token.
#[tactic(auto, unfolding(crate::specs::Collecting::numbered_at))]
fn numbered_at(bytes: &[u8]) -> Result<&[u8], Stop>
    ensures { (front : List ℕ) → Gives (λ rest. (front, rest.now)) result (numbered_at front bytes.now) }
{
    let (_, rest) = variable_at(bytes).ok_or(Stop::Unspelled)?;
    Ok(rest)
}

/// The tokens of the array at the front (ECMA-335 II.23.2.13).
#[cycle(types)]
#[tactic(auto, unfolding(crate::specs::Collecting::array_at))]
fn array_at<'a>(depth: u32, bytes: &'a [u8], into: &mut Numbers) -> Result<&'a [u8], Stop>
    ensures { Gives (λ rest. (into.new, rest.now)) result (array_at (type_at depth) into.old bytes.now) }
{
    let rest = type_at(depth, bytes, into)?;
    let (_, rest) = shape_at(rest).ok_or(Stop::Unspelled)?;
    Ok(rest)
}

/// Those of the generic type at the front, with its arguments (ECMA-335 II.23.2.12).
#[cycle(types)]
#[tactic(auto, unfolding(crate::specs::Collecting::inst_at))]
fn inst_at<'a>(depth: u32, bytes: &'a [u8], into: &mut Numbers) -> Result<&'a [u8], Stop>
    ensures { Gives (λ rest. (into.new, rest.now)) result (inst_at (type_at depth) into.old bytes.now) }
{
    let (_, rest) = byte_at(bytes).ok_or(Stop::Unspelled)?;
    let rest = token_at(rest, into)?;
    list_at(depth, rest, into)
}

/// Those of the type at the front behind its modifier, and of this (ECMA-335 II.23.2.7).
#[cycle(types)]
#[tactic(auto, unfolding(crate::specs::Collecting::modified_at))]
fn modified_at<'a>(depth: u32, bytes: &'a [u8], into: &mut Numbers) -> Result<&'a [u8], Stop>
    ensures { Gives (λ rest. (into.new, rest.now)) result (modified_at (type_at depth) into.old bytes.now) }
{
    let rest = token_at(bytes, into)?;
    type_at(depth, rest, into)
}

/// Those of a count and so many types at the front.
#[cycle(types)]
#[tactic(auto, unfolding(crate::specs::Collecting::list_at))]
pub(crate) fn list_at<'a>(depth: u32, bytes: &'a [u8], into: &mut Numbers) -> Result<&'a [u8], Stop>
    ensures { Gives (λ rest. (into.new, rest.now)) result (list_at (type_at depth) into.old bytes.now) }
{
    let (count, rest) = number_at(bytes).ok_or(Stop::Unspelled)?;
    types_at(depth, count, rest, into)
}

/// Those of so many types at the front, with a sentinel between them or none (ECMA-335 II.23.2.2).
#[cycle(types)]
pub(crate) fn types_at<'a>(
    depth: u32,
    count: u32,
    bytes: &'a [u8],
    into: &mut Numbers,
) -> Result<&'a [u8], Stop>
    ensures { Gives (λ rest. (into.new, rest.now)) result (types_at (type_at depth) count into.old bytes.now) }
{
    let mut rest = bytes;
    for _ in 0..count {
        rest = type_at(depth, behind_sentinel(rest), into)?;
    }
    Ok(rest)
}

/// The bytes behind a sentinel, where one stands at the front.
fn behind_sentinel(bytes: &[u8]) -> &[u8]
    ensures { result.now ≡ behind_sentinel bytes.now }
{
    match bytes {
        [0x41, rest @ ..] => rest,
        _ => bytes,
    }
}

ghost use Rattle.std.specs.Prelude.{◌≡◌};
ghost use Rattle.std.specs.Option.{option_map};
ghost use Rattle.signature_facts.specs.Scanning.{type_at, params_at, whole_type, whole_field, whole_types, whole_locals, whole_instantiation, whole_method, whole_property};

use crate::facts::{joined, leaf};
use crate::first_bytes::{counts_at, property_count_at};
use crate::types::{all_types_at, type_at, types_at};
use crate::{Facts, ListFacts, MethodFacts, Owners};
use sig_codec::{Left, MAX_NODES, byte_at, number_at};
use type_terms::MAX_DEPTH;

/// The facts of the type that the bytes spell, all of them (ECMA-335 II.23.2.14).
#[tactic(auto, unfolding(crate::specs::Scanning::whole_type))]
pub(crate) fn whole_type<O: Owners>(bytes: &[u8], map: &O) -> Option<Facts>
    ensures { result ≡ whole_type (O.facts map.now) bytes.now }
{
    let nodes = MAX_NODES;
    let (facts, left) = type_at(map, MAX_DEPTH, Left { bytes, nodes })?;
    if left.bytes.is_empty() {
        Some(facts)
    } else {
        None
    }
}

/// The same of a field (ECMA-335 II.23.2.4).
#[tactic(auto, unfolding(crate::specs::Scanning::whole_field))]
pub(crate) fn whole_field<O: Owners>(bytes: &[u8], map: &O) -> Option<Facts>
    ensures { result ≡ whole_field (O.facts map.now) bytes.now }
{
    let (byte, rest) = byte_at(bytes)?;
    if byte == 0x06 {
        whole_type(rest, map)
    } else {
        None
    }
}

/// A count and so many types, to the end.
#[tactic(auto, unfolding(crate::specs::Scanning::whole_types))]
fn whole_types<O: Owners>(bytes: &[u8], map: &O) -> Option<ListFacts>
    ensures { result ≡ whole_types (O.facts map.now) bytes.now }
{
    let (count, bytes) = number_at(bytes)?;
    let nodes = MAX_NODES;
    let (facts, left) = all_types_at(map, MAX_DEPTH, leaf(0), count, Left { bytes, nodes })?;
    if left.bytes.is_empty() {
        Some(ListFacts { count, facts })
    } else {
        None
    }
}

/// The facts of the locals that the bytes spell (ECMA-335 II.23.2.6).
#[tactic(auto, unfolding(crate::specs::Scanning::whole_locals))]
pub(crate) fn whole_locals<O: Owners>(bytes: &[u8], map: &O) -> Option<ListFacts>
    ensures { result ≡ whole_locals (O.facts map.now) bytes.now }
{
    let (byte, rest) = byte_at(bytes)?;
    if byte == 0x07 {
        whole_types(rest, map)
    } else {
        None
    }
}

/// Those of the arguments of a generic method that the bytes spell (ECMA-335 II.23.2.15).
#[tactic(auto, unfolding(crate::specs::Scanning::whole_instantiation))]
pub(crate) fn whole_instantiation<O: Owners>(bytes: &[u8], map: &O) -> Option<ListFacts>
    ensures { result ≡ whole_instantiation (O.facts map.now) bytes.now }
{
    let (byte, rest) = byte_at(bytes)?;
    if byte != 0x0A {
        return None;
    }
    let types = whole_types(rest, map)?;
    if types.count == 0 { None } else { Some(types) }
}

/// So many parameters at the front, with a sentinel between them or none (ECMA-335 II.23.2.2).
#[tactic(auto, unfolding(crate::specs::Scanning::params_at))]
fn params_at<'a, O: Owners>(
    map: &O,
    front: Facts,
    count: u32,
    left: Left<'a>,
) -> Option<(Facts, bool, Left<'a>)>
    ensures { option_map (λ x. (x.0, x.1, x.2.bytes.now, x.2.nodes)) result ≡ params_at (type_at (O.facts map.now) 100) front count left.entry.bytes.now left.entry.nodes }
{
    let (fixed, more, left) = types_at(map, MAX_DEPTH, front, count, left)?;
    if more == 0 {
        return Some((fixed, false, left));
    }
    let (_, bytes) = byte_at(left.bytes)?;
    let left = Left { bytes, ..left };
    let (all, left) = all_types_at(map, MAX_DEPTH, fixed, more, left)?;
    Some((all, true, left))
}

/// The facts of the method that the bytes spell (ECMA-335 II.23.2.1, II.23.2.2).
#[tactic(auto, unfolding(crate::specs::Scanning::whole_method))]
pub(crate) fn whole_method<O: Owners>(bytes: &[u8], map: &O) -> Option<MethodFacts>
    ensures { result ≡ whole_method (O.facts map.now) bytes.now }
{
    let (generic, params, bytes) = counts_at(bytes)?;
    let nodes = MAX_NODES;
    let (ret, left) = type_at(map, MAX_DEPTH, Left { bytes, nodes })?;
    let front = joined(leaf(u64::from(generic)), ret);
    let (facts, has_sentinel, left) = params_at(map, front, params, left)?;
    if !left.bytes.is_empty() {
        return None;
    }
    Some(MethodFacts {
        generic,
        params,
        has_sentinel,
        facts,
    })
}

/// The facts of the property that the bytes spell (ECMA-335 II.23.2.5).
#[tactic(auto, unfolding(crate::specs::Scanning::whole_property))]
pub(crate) fn whole_property<O: Owners>(bytes: &[u8], map: &O) -> Option<MethodFacts>
    ensures { result ≡ whole_property (O.facts map.now) bytes.now }
{
    let (params, bytes) = property_count_at(bytes)?;
    let nodes = MAX_NODES;
    let (ret, left) = type_at(map, MAX_DEPTH, Left { bytes, nodes })?;
    let front = joined(leaf(0), ret);
    let (facts, left) = all_types_at(map, MAX_DEPTH, front, params, left)?;
    if !left.bytes.is_empty() {
        return None;
    }
    Some(MethodFacts {
        generic: 0,
        params,
        has_sentinel: false,
        facts,
    })
}

ghost use Rattle.std.specs.Prelude.{◌≡◌};
ghost use Rattle.std.specs.Option.{option_map};
ghost use Rattle.signature_facts.specs.Scanning.{owner_at, declared_at, generic_at, after_facts};

use crate::facts::{inst_tag, joined, leaf};
use crate::{Facts, OwnerFacts, Owners};
use sig_codec::{kind_at, number_at, token_of_coded};

/// The coded token at the front, the facts of what it names, and the bytes behind it.
#[tactic(auto, unfolding(crate::specs::Scanning::owner_at))]
pub(crate) fn owner_at<'a, O: Owners>(
    map: &O,
    bytes: &'a [u8],
) -> Option<(u32, OwnerFacts, &'a [u8])>
    ensures { option_map (λ x. (x.0, x.1, x.2.now)) result ≡ owner_at (O.facts map.now) bytes.now }
{
    let (number, rest) = number_at(bytes)?;
    let token = token_of_coded(number)?;
    let owner = map.facts_of(token)?;
    Some((token, owner, rest))
}

/// The facts of the class or value type at the front, which must be a plain name of the tables TypeDef and TypeRef.
#[tactic(auto, unfolding(crate::specs::Scanning::declared_at))]
pub(crate) fn declared_at<'a, O: Owners>(map: &O, bytes: &'a [u8]) -> Option<(Facts, &'a [u8])>
    ensures { option_map (λ x. (x.0, x.1.now)) result ≡ declared_at (O.facts map.now) bytes.now }
{
    let (token, owner, rest) = owner_at(map, bytes)?;
    if owner.is_name && token < 3 << 24 {
        Some((owner.facts, rest))
    } else {
        None
    }
}

/// The generic type at the front up to its arguments, and how many these are (ECMA-335 II.23.2.12).
#[tactic(auto, unfolding(crate::specs::Scanning::generic_at))]
pub(crate) fn generic_at<'a, O: Owners>(map: &O, bytes: &'a [u8]) -> Option<(Facts, u32, &'a [u8])>
    ensures { option_map (λ x. (x.0, x.1, x.2.now)) result ≡ generic_at (O.facts map.now) bytes.now }
{
    let (value, rest) = kind_at(bytes)?;
    let (_, owner, rest) = owner_at(map, rest)?;
    let (count, rest) = number_at(rest)?;
    if !owner.is_name || count == 0 {
        return None;
    }
    Some((joined(leaf(inst_tag(value)), owner.facts), count, rest))
}

/// How many of `nodes` are left beside the owner of a modifier. None where its depth is over `limit` or it has more nodes.
pub(crate) fn after_facts(facts: Facts, limit: u32, nodes: u32) -> Option<u32>
    ensures { result ≡ after_facts facts limit nodes }
{
    if facts.depth <= limit && facts.nodes <= nodes {
        Some(nodes - facts.nodes)
    } else {
        None
    }
}

//! Names that stand in a list twice, found by their hashes.
ghost use Rattle.std.specs.Prelude.{◌≡◌, ◌<◌, length, slice_get, IfOk, map, option_map, Some};
ghost use Rattle.hash_places.specs.Slots.{place_of};
ghost use Rattle.print_terms.specs.Chains.{IsChained};
ghost use Rattle.print_terms.specs.Names.{name_hash, is_repeated};

use assembly_tree::ExternAssembly;
use hash_places::HashPlaces;
use il_lists::{Items, NoMemory};
use std::alloc::Global;
use type_terms::hashing::{START, mix_text};

/// Assemblies by the hashes of their names: those with one hash form a chain, the newest first.
#[derive(Drop)]
pub(crate) struct Chains {
    /// From a hash to the place of the newest assembly with it.
    pub newest: HashPlaces,
    /// From an assembly to the newest older one with the same hash.
    pub nexts: Items<Option<usize>>,
}

/// The chains of a list.
pub(crate) fn chains_of(alloc: Global, externs: &[ExternAssembly]) -> Result<Chains, NoMemory>
    ensures { IfOk result (λ c. IsChained name_hash (place_of c.newest) externs.now c.nexts) }
{
    let mut newest = HashPlaces::with_room(alloc, externs.len())?;
    let mut nexts = Items::with_capacity(alloc, externs.len())?;
    for e in externs {
        let place = nexts.len();
        let next = newest.insert(hash_of(e), place)?;
        nexts.push(next)?;
    }
    Ok(Chains { newest, nexts })
}

/// Whether another assembly has the name of the one with this number.
pub(crate) fn is_repeated(externs: &[ExternAssembly], chains: &Chains, number: usize) -> bool
    requires within { number < length externs.now }
    requires chained { IsChained name_hash (place_of chains.now.newest) externs.now chains.now.nexts }
    ensures { Some result ≡ option_map (is_repeated externs.now) (slice_get externs.now number) }
{
    let e = &externs[number];
    let mut at = chains.newest.get(hash_of(e));
    while let Some(place) = at {
        if place != number && externs[place].name.as_bytes() == e.name.as_bytes() {
            return true;
        }
        at = *chains.nexts.at(place);
    }
    false
}

fn hash_of(e: &ExternAssembly) -> u64
    ensures { result ≡ name_hash e.now }
{
    mix_text(START, e.name.as_bytes())
}

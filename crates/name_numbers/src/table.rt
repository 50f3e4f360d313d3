ghost use Rattle.std.specs.Prelude.{◌≡◌, ◌↔◌, ℕ, List, [], IsTrue, IfSome, IfNone, OnOk};
ghost use Rattle.name_numbers.specs.Table.{Finds, HasName, LacksName, AddsName, told, told_hash, mix};

use crate::TextHashes;
use hash_places::HashPlaces;
use il_base::{Items, NoMemory};
use std::alloc::Global;

/// What names a node: the number of the node that encloses it, and where its space and its text stand.
#[derive(Debug, Clone, Copy)]
pub(crate) struct Key {
    pub(crate) parent: u32,
    pub(crate) space: u32,
    pub(crate) text: u32,
}

/// A name with its number.
#[derive(Debug, Clone, Copy)]
pub(crate) struct Entry {
    pub(crate) key: Key,
    pub(crate) number: u32,
    // The newest older entry with the same hash.
    pub(crate) next: Option<usize>,
}

/// Distinct names with their numbers, found by their hashes.
#[derive(Drop)]
pub(crate) struct NameTable {
    // From a hash to the place of the newest entry with it.
    pub(crate) newest: HashPlaces,
    pub(crate) entries: Items<Entry>,
}

impl NameTable {
    /// No names.
    pub(crate) fn new(alloc: Global) -> NameTable
        ensures finds { (heap : List ℕ) → Finds result heap }
        ensures empty { result.entries ≡ [] }
    {
        NameTable {
            newest: HashPlaces::new(alloc),
            entries: Items::new(alloc),
        }
    }

    /// The number of a name. Takes no memory.
    pub(crate) fn find(&self, texts: &TextHashes<'_>, key: Key) -> Option<u32>
        requires { Finds self.now texts.now }
        ensures found { IfSome result (HasName self.now.entries texts.now (told texts.now key)) }
        ensures none { IfNone result (LacksName self.now.entries texts.now (told texts.now key)) }
    {
        let mut at = self.newest.get(hash_of(texts, key));
        while let Some(place) = at {
            let entry = self.entries.at(place);
            if are_same(texts, entry.key, key) {
                return Some(entry.number);
            }
            at = entry.next;
        }
        None
    }

    /// Notes a name that isn't there yet.
    pub(crate) fn note(
        &mut self,
        texts: &TextHashes<'_>,
        key: Key,
        number: u32,
    ) -> Result<(), NoMemory>
        requires finds { Finds self.old texts.now }
        requires lacks { LacksName self.old.entries texts.now (told texts.now key) }
        ensures finds { OnOk result (Finds self.new texts.now) }
        ensures added { OnOk result (AddsName self.old.entries self.new.entries texts.now (told texts.now key) number) }
    {
        let hash = hash_of(texts, key);
        let next = self.newest.get(hash);
        let place = self.entries.as_slice().len();
        self.entries.push(Entry { key, number, next })?;
        self.newest.insert(hash, place)?;
        Ok(())
    }
}

/// The hash of a name.
#[tactic(auto, unfolding(crate::specs::Table::told_hash))]
fn hash_of(texts: &TextHashes<'_>, key: Key) -> u64
    ensures { result ≡ told_hash (told texts.now key) }
{
    let space = texts.hash_at(key.space);
    let text = texts.hash_at(key.text);
    mix(mix(u64::from(text), space), key.parent)
}

/// A step of FNV-1 at 64 bits.
#[tactic(auto, unfolding(crate::specs::Table::mix))]
fn mix(hash: u64, number: u32) -> u64
    ensures { result ≡ mix hash number }
{
    hash.wrapping_mul(0x0000_0100_0000_01B3) ^ u64::from(number)
}

/// Whether two keys tell one name.
fn are_same(texts: &TextHashes<'_>, one: Key, other: Key) -> bool
    ensures { IsTrue result ↔ (told texts.now one ≡ told texts.now other) }
{
    one.parent == other.parent
        && texts.is_same(one.text, other.text)
        && texts.is_same(one.space, other.space)
}

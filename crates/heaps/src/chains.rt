//! Which contents a heap has, found by their hash.
//!
//! A heap's bytes hold each content once. An entry's place says where, and a chain links the entries
//! with one hash, newest first; a map leads from a hash to the newest. So nothing is copied to find a
//! content again.
ghost use Rattle.std.specs.Prelude.{◌≡◌, ◌+◌, ◌<◌, ◌≤◌, ◌^◌, ◌↔◌, [], length, take, drop, IsTrue, IfSome, IfNone, OnOk, OnErr};
ghost use Rattle.heaps.specs.Hash.{hash_of, mix};

use hash_places::HashPlaces;
use il_base::{Items, NoMemory};
use std::alloc::Global;

/// Where a content stands: its entry's index, and its own bytes.
#[derive(Debug, Clone, Copy)]
pub struct Place {
    pub index: u32,
    pub start: u32,
    pub len: u32,
    // The newest older entry with the same hash.
    pub next: Option<usize>,
}

/// The places of a heap's entries, in the order of their coming, with the chains that find them.
#[derive(Drop)]
pub struct Chains {
    // From a hash to the number of the newest entry with it.
    pub newest: HashPlaces,
    pub places: Items<Place>,
}

impl Chains {
    ghost use Rattle.heaps.specs.Finds.{Finds, IsPlaceOf, Lacks, AddsPlace};

    /// No entries.
    pub fn new(alloc: Global) -> Chains
        ensures { Finds result [] }
    {
        Chains {
            newest: HashPlaces::new(alloc),
            places: Items::new(alloc),
        }
    }

    /// Makes room for so many entries, where there are none yet.
    pub fn make_room(&mut self, alloc: Global, _bytes: &[u8], count: usize) -> Result<(), NoMemory>
        requires { Finds self.old _bytes.now }
        ensures finds { Finds self.new _bytes.now }
        ensures same { self.new.places ≡ self.old.places }
    {
        if self.places.is_empty() {
            self.newest = HashPlaces::with_room(alloc, count)?;
            self.places.reserve(count)?;
        }
        Ok(())
    }

    /// The index of the entry with this content.
    pub fn find(&self, bytes: &[u8], content: &[u8]) -> Option<u32>
        requires { Finds self.now bytes.now }
        ensures found { IfSome result (IsPlaceOf self.now bytes.now content.now) }
        ensures none { IfNone result (Lacks self.now bytes.now content.now) }
    {
        let mut at = self.newest.get(hash_of(content));
        while let Some(number) = at {
            let place = self.places.at(number);
            if are_equal(content_at(bytes, place), content) {
                return Some(place.index);
            }
            at = place.next;
        }
        None
    }

    /// Notes an entry: `content` stands in `bytes` at `start`, and nowhere before.
    pub fn note(
        &mut self,
        bytes: &[u8],
        index: u32,
        start: u32,
        content: &[u8],
    ) -> Result<(), NoMemory>
        requires finds { Finds self.old bytes.now }
        requires lacks { Lacks self.old bytes.now content.now }
        requires here { content.now ≡ take (length content.now) (drop start bytes.now) }
        requires within { start + length content.now ≤ length bytes.now }
        requires room { length self.old.places < length bytes.now }
        requires small { length bytes.now < 2 ^ 29 }
        ensures finds { Finds self.new bytes.now }
        ensures ok { OnOk result (AddsPlace self.old self.new bytes.now index content.now) }
        ensures err { OnErr result (self.new.places ≡ self.old.places) }
    {
        let hash = hash_of(content);
        let place = Place {
            index,
            start,
            len: content.len() as u32,
            next: self.newest.get(hash),
        };
        let number = self.places.len();
        self.places.push(place)?;
        match self.newest.insert(hash, number) {
            Ok(_) => Ok(()),
            Err(_) => {
                self.places.pop();
                Err(NoMemory)
            }
        }
    }
}

// The content at a place.
fn content_at<'a>(bytes: &'a [u8], place: &Place) -> &'a [u8]
    requires { place.now.start + place.now.len ≤ length bytes.now }
    ensures { result.now ≡ take place.now.len (drop place.now.start bytes.now) }
{
    let start = place.start as usize;
    &bytes[start..start + place.len as usize]
}

// Whether two contents are equal. Most are short: a plain loop over their bytes takes the least time.
fn are_equal(one: &[u8], other: &[u8]) -> bool
    ensures { IsTrue result ↔ (one.now ≡ other.now) }
{
    if one.len() != other.len() {
        return false;
    }
    for k in 0..one.len() {
        if one[k] != other[k] {
            return false;
        }
    }
    true
}

/// The FNV-1 hash of a content. Contents that differ in their last byte alone, as numbered names do, stand near one
/// another in the table.
#[tactic(auto, unfolding(crate::specs::Hash::hash_of))]
fn hash_of(content: &[u8]) -> u64
    ensures { result ≡ hash_of content.now }
{
    let mut hash = START;
    for byte in content {
        hash = mix(hash, *byte);
    }
    hash
}

const START: u64 = 0xCBF2_9CE4_8422_2325;

// One step of it.
#[tactic(auto, unfolding(crate::specs::Hash::mix))]
fn mix(hash: u64, byte: u8) -> u64
    ensures { result ≡ mix hash byte }
{
    hash.wrapping_mul(0x0000_0100_0000_01B3) ^ u64::from(byte)
}

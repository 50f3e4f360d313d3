//! The slots of a table, and where a search for a hash ends: it begins at a slot that the hash names, goes on to the last slot
//! and then from the first, and ends at the first slot that is empty or has the hash.

ghost use Rattle.std.specs.Prelude.{◌≡◌, ℕ, ◌+◌, ◌-◌, ◌/◌, ◌^◌, ◌<◌, ◌≤◌, ◌⊎◌, length, min, cond, nat_eq, Some, IfOk, MatchOption};
ghost use Rattle.hash_places.specs.Slots.{AreEmpty, AreOther, AreOtherWithin, AreReached, IsStop, IsStopWithin, IsTable, place_of, place_in, start_of, used_in};

use il_lists::NoMemory;
use std::alloc::Global;

/// A slot. Where it is used it has a hash, and a place plus one.
#[derive(Debug, Clone, Copy)]
pub struct Slot {
    pub hash: u64,
    pub place: usize,
}

/// A slot that isn't used.
pub const EMPTY: Slot = Slot { hash: 0, place: 0 };

/// 2^64 over the golden ratio. Hashes are multiplied by it, so that numbers that lie side by side are spread over the slots.
const MULTIPLIER: u64 = 0x9E37_79B9_7F4A_7C15;

// The slot where a search for a hash begins.
#[tactic(auto, unfolding(crate::specs::Slots::start_of, crate::specs::Slots::spread), using(crate::proofs::SlotLemmas::start_within))]
fn start_of(count: usize, hash: u64) -> usize
    requires { 0 < count }
    ensures value { result ≡ start_of count hash }
    ensures within { result < count }
{
    let spread = hash.wrapping_mul(MULTIPLIER);
    let mixed = spread ^ (spread >> 32);
    mixed as usize & (count - 1)
}

// The first of some slots that is empty or has a hash.
fn stop_within(slots: &[Slot], from: usize, to: usize, hash: u64) -> Option<usize>
    requires { to ≤ length slots.now }
    ensures { MatchOption result (AreOtherWithin slots.now hash from to) (λ k. IsStopWithin slots.now hash from to k) }
{
    let mut k = from;
    while k < to {
        if slots[k].place == 0 || slots[k].hash == hash {
            return Some(k);
        }
        k += 1;
    }
    None
}

/// The slot at which a search for a hash ends.
pub fn stop_of(slots: &[Slot], hash: u64) -> Option<usize>
    ensures { MatchOption result (AreOther slots.now hash) (λ k. IsStop slots.now hash k) }
{
    if slots.is_empty() {
        return None;
    }
    let start = start_of(slots.len(), hash);
    match stop_within(slots, start, slots.len(), hash) {
        Some(k) => Some(k),
        None => stop_within(slots, 0, start, hash),
    }
}

/// The place in a slot.
pub fn place_in(place: usize) -> Option<usize>
    ensures { result ≡ place_in place }
{
    if place == 0 { None } else { Some(place - 1) }
}

/// Gives a hash a place, which is counted from one, and answers what stood there.
pub fn put(slots: &mut [Slot], hash: u64, place: usize) -> usize
    requires reached { AreReached slots.old }
    requires room { used_in slots.old < length slots.old }
    requires used { 0 < place }
    ensures reached { AreReached slots.new }
    ensures long { length slots.new ≡ length slots.old }
    ensures counted { used_in slots.new + min 1 result ≡ used_in slots.old + 1 }
    ensures placed { (q : ℕ) → place_of slots.new q ≡ cond (nat_eq hash q) (Some (place - 1)) (place_of slots.old q) }
    ensures answer { place_in result ≡ place_of slots.old hash }
{
    match stop_of(slots, hash) {
        Some(k) => {
            let before = slots[k].place;
            slots[k] = Slot { hash, place };
            before
        }
        None => 0,
    }
}

// Puts what stands in a slot, if anything does, and answers how many slots are used then.
fn put_slot(slot: Slot, others: &mut [Slot], used: usize) -> usize
    requires table { IsTable others.old used }
    requires room { used < length others.old }
    ensures table { IsTable others.new result }
    ensures long { length others.new ≡ length others.old }
    ensures few { result ≤ used + 1 }
    ensures kept { slot.place ≡ 0 → (q : ℕ) → place_of others.new q ≡ place_of others.old q }
    ensures placed { 0 < slot.place → (q : ℕ) → place_of others.new q ≡ cond (nat_eq slot.hash q) (Some (slot.place - 1)) (place_of others.old q) }
{
    if slot.place == 0 {
        return used;
    }
    if put(others, slot.hash, slot.place) == 0 {
        used + 1
    } else {
        used
    }
}

/// Puts what stands in some slots into others, and answers how many of those are used then.
pub fn put_all(slots: &[Slot], others: &mut [Slot]) -> usize
    requires reached { AreReached slots.now }
    requires empty { AreEmpty others.old }
    requires room { length slots.now < length others.old }
    ensures table { IsTable others.new result }
    ensures long { length others.new ≡ length others.old }
    ensures few { result ≤ length slots.now }
    ensures placed { (q : ℕ) → place_of others.new q ≡ place_of slots.now q }
{
    let mut used = 0;
    for slot in slots {
        used = put_slot(*slot, others, used);
    }
    used
}

/// So many slots that aren't used.
pub fn empty_slots(alloc: Global, count: usize) -> Result<Vec<Slot>, NoMemory>
    ensures empty { IfOk result (λ slots. AreEmpty slots.items) }
    ensures long { IfOk result (λ slots. length slots.items ≡ count) }
{
    let slots = vec![in alloc; EMPTY; count]?;
    Ok(slots)
}

/// How many slots are made for so many hashes.
pub fn slots_for(count: usize) -> usize
    ensures { (count ≤ result / 2) ⊎ (2 ^ 62 ≤ result) }
{
    let mut slots = 8;
    while slots / 2 < count && slots < 1 << 62 {
        slots *= 2;
    }
    slots
}

//! The first type that is its own ancestor, by the steps between types.

ghost use Rattle.std.specs.Prelude.{◌≡◌, ◌≤◌, ◌<◌, ℕ, length, IfOk, IsTrue, MatchOption, get_or};
ghost use Rattle.std.specs.List.{Contains};
ghost use Rattle.type_tables.specs.Walks.{FallsBefore, IsFirstBack, IsWithin, NeverRises};

use crate::ranks::numbers;
use crate::reach::reached;
use il_lists::{Items, NoMemory};
use std::alloc::Global;

/// The first type that steps lead back to; None exactly where there is none.
///
/// Linear in types and steps: numbers tell where the first type is from which a step doesn't lead to a lower number, and one
/// walk shows that steps lead back to it. Were the numbers not as they should be, the types would be tried one by one.
pub fn first_cyclic(alloc: Global, steps: &Items<Items<usize>>) -> Result<Option<usize>, NoMemory>
    requires { IsWithin steps.now }
    ensures { IfOk result (λ first. IsFirstBack steps.now first) }
{
    let numbers = numbers(alloc, steps)?;
    let Some(k) = first_level(steps, numbers.as_slice()) else {
        return Ok(None);
    };
    if never_rises(steps, numbers.as_slice()) {
        let seen = reached(alloc, steps, k)?;
        if seen.contains(&k) {
            return Ok(Some(k));
        }
    }
    first_by_walks(alloc, steps)
}

/// The first type from which a step leads to a number that isn't lower than its own.
pub fn first_level(steps: &Items<Items<usize>>, numbers: &[usize]) -> Option<usize>
    ensures { MatchOption
        result
        (FallsBefore steps.now numbers.now (length steps.now))
        (λ k. (k < length steps.now) × FallsBefore steps.now numbers.now k) }
{
    for (i, nexts) in steps.as_slice().iter().enumerate() {
        if !all_below(nexts.as_slice(), numbers, number_at(numbers, i)) {
            return Some(i);
        }
    }
    None
}

/// Whether no step leads to a higher number.
pub fn never_rises(steps: &Items<Items<usize>>, numbers: &[usize]) -> bool
    ensures { IsTrue result → NeverRises steps.now numbers.now }
{
    for (i, nexts) in steps.as_slice().iter().enumerate() {
        if !none_above(nexts.as_slice(), numbers, number_at(numbers, i)) {
            return false;
        }
    }
    true
}

/// The number of a type.
fn number_at(numbers: &[usize], place: usize) -> usize
    ensures { result ≡ get_or numbers.now place 0 }
{
    match numbers.get(place) {
        Some(number) => *number,
        None => 0,
    }
}

/// Whether the numbers of all these types are below a limit.
fn all_below(places: &[usize], numbers: &[usize], limit: usize) -> bool
    ensures { IsTrue result → (j : ℕ) → Contains places.now j → get_or numbers.now j 0 < limit }
{
    places
        .iter()
        .all(|place| number_at(numbers, *place) < limit)
}

/// Whether none of the numbers of these types is above a limit.
fn none_above(places: &[usize], numbers: &[usize], limit: usize) -> bool
    ensures { IsTrue result → (j : ℕ) → Contains places.now j → get_or numbers.now j 0 ≤ limit }
{
    places
        .iter()
        .all(|place| number_at(numbers, *place) <= limit)
}

/// The first type that steps lead back to, by a walk from each in turn.
fn first_by_walks(alloc: Global, steps: &Items<Items<usize>>) -> Result<Option<usize>, NoMemory>
    requires { IsWithin steps.now }
    ensures { IfOk result (λ first. IsFirstBack steps.now first) }
{
    for k in 0..steps.len() {
        let seen = reached(alloc, steps, k)?;
        if seen.contains(&k) {
            return Ok(Some(k));
        }
    }
    Ok(None)
}

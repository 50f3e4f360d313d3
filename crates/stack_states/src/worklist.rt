ghost use Rattle.std.specs.Prelude.{◌≡◌, ℕ, [], ◌∷◌, ◌<◌, ◌≤◌, ◌+◌, IfOk, MatchOption, false, true, length, slice_index};
ghost use Rattle.stack_states.specs.Waiting.{Waiting, has, pushed};

use il_lists::NoMemory;
use std::alloc::{AllocError, Global};
use std::marker::Model;

/// The numbers of the instructions that wait to be looked at, each at most once, the one that has waited
/// longest first. It is a doubly linked list through one record for each number, so that each call takes
/// the same time however many wait.
#[derive(Drop)]
pub struct Worklist {
    /// The number of records, and the number that stands for both ends of the list.
    count: u32,
    /// For each number in the list and the ends, what stands before it; any other number itself.
    before: Vec<u32>,
    /// For each number in the list and the ends, what stands after it; any other number itself.
    after: Vec<u32>,
}

impl Model for Worklist {
    ghost use Rattle.stack_states.specs.Waiting.{Waiting};
    ghost use Rattle.stack_states.specs.Links.{numbers_in, IsLinked};

    ghost Value = { Waiting };

    ghost view = { λ w. record { count = w.count; numbers = numbers_in w.after.items w.count } };

    ghost invariant = { λ w. IsLinked w.before.items w.after.items w.count (numbers_in w.after.items w.count) };
}

/// The numbers from 0 to `n`, each at its own place.
fn places(alloc: Global, n: u32) -> Result<Vec<u32>, AllocError>
    ensures { IfOk result (λ v. (length v.items ≡ n + 1) × ((k : ℕ) → k ≤ n → slice_index v.items k ≡ k)) }
{
    let mut numbers = Vec::with_capacity(alloc, n as usize + 1)?;
    for k in 0..n {
        numbers.push(k)?;
    }
    numbers.push(n)?;
    Ok(numbers)
}

impl Worklist {
    /// The empty list of numbers below `n`.
    pub fn new(alloc: Global, n: u32) -> Result<Worklist, NoMemory>
        ensures { IfOk result (λ w. w ≡ record { count = n; numbers = [] }) }
    {
        let before = places(alloc, n)?;
        let after = places(alloc, n)?;
        Ok(Worklist {
            count: n,
            before,
            after,
        })
    }

    /// Whether `k` waits. Takes no memory.
    pub fn holds(&self, k: u32) -> bool
        requires { k < self.now.count }
        ensures { result ≡ has self.now.numbers k }
    {
        self.after[k as usize] != k
    }

    /// Lets `k` wait behind the others; a number that waits stays where it is. Takes no memory.
    pub fn push(&mut self, k: u32)
        requires { k < self.old.count }
        ensures { self.new ≡ pushed self.old k }
    {
        if self.after[k as usize] != k {
            return;
        }
        let last = self.before[self.count as usize];
        self.before[k as usize] = last;
        self.after[k as usize] = self.count;
        self.after[last as usize] = k;
        self.before[self.count as usize] = k;
    }

    /// Takes off the number that has waited longest; None exactly where none waits. Takes no memory.
    pub fn pop(&mut self) -> Option<u32>
        ensures taken { MatchOption result ((self.old.numbers ≡ []) × (self.new ≡ self.old)) (λ k. self.old ≡ record self.new { numbers = k ∷ self.new.numbers }) }
        ensures below { MatchOption result (Unit {0}) (λ k. k < self.new.count) }
        ensures once { MatchOption result (Unit {0}) (λ k. has self.new.numbers k ≡ false) }
    {
        let first = self.after[self.count as usize];
        if first == self.count {
            return None;
        }
        let second = self.after[first as usize];
        self.after[self.count as usize] = second;
        self.before[second as usize] = self.count;
        self.before[first as usize] = first;
        self.after[first as usize] = first;
        Some(first)
    }
}

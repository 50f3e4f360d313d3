//! Numbers of types by which most of what steps lead to can be told without a walk.
//!
//! Types that steps lead to from each other both ways have one number, and every other step leads to a lower one (R. E.
//! Tarjan, "Depth-first search and linear graph algorithms", 1972; D. J. Pearce's form with one number for each type).
//! Contracts say nothing of the numbers: who uses them tests them.

use il_lists::{Items, NoMemory};
use std::alloc::Global;

/// A type on the way that is being walked.
#[derive(Clone, Copy, Drop)]
struct Visit {
    at: usize,
    /// How many of its steps were tried.
    tried: usize,
    /// Its number when it was met. It keeps it where no type that is still open, and was met before, can be reached.
    number: usize,
}

/// The walk. A type's number is 0 until it is met, falls from the highest with each that is met, and rises from 1 with each
/// group that is done.
#[derive(Drop)]
struct Walk {
    numbers: Items<usize>,
    way: Items<Visit>,
    waiting: Items<usize>,
    open: usize,
    done: usize,
}

/// A number for each type, in time linear in types and steps.
pub fn numbers(alloc: Global, steps: &Items<Items<usize>>) -> Result<Items<usize>, NoMemory> {
    let mut walk = Walk::new(alloc, steps.len())?;
    for root in 0..steps.len() {
        if walk.number(root) == 0 {
            walk.open(root)?;
            walk.run(steps)?;
        }
    }
    Ok(walk.numbers)
}

impl Walk {
    fn new(alloc: Global, count: usize) -> Result<Walk, NoMemory> {
        let mut numbers = Items::with_capacity(alloc, count)?;
        for _ in 0..count {
            numbers.push(0)?;
        }
        Ok(Walk {
            numbers,
            way: Items::new(alloc),
            waiting: Items::new(alloc),
            open: usize::MAX,
            done: 1,
        })
    }

    fn number(&self, place: usize) -> usize {
        self.numbers.get(place).copied().unwrap_or(0)
    }

    fn set_number(&mut self, place: usize, number: usize) {
        if place < self.numbers.len() {
            self.numbers.set(place, number);
        }
    }

    /// Puts a type that is new at the end of the way.
    fn open(&mut self, at: usize) -> Result<(), NoMemory> {
        let number = self.open;
        self.open = number.saturating_sub(1);
        self.set_number(at, number);
        self.way.push(Visit {
            at,
            tried: 0,
            number,
        })
    }

    /// Walks to the end of the way.
    fn run(&mut self, steps: &Items<Items<usize>>) -> Result<(), NoMemory> {
        for _ in 0..usize::MAX {
            let Some(visit) = self.way.pop() else {
                return Ok(());
            };
            let next = match steps.get(visit.at) {
                Some(nexts) => nexts.get(visit.tried).copied(),
                None => None,
            };
            match next {
                Some(next) => self.try_step(visit, next)?,
                None => self.close(visit)?,
            }
        }
        Ok(())
    }

    /// Goes on at the type to which a step leads, where it is new; else takes over its number, where that is higher.
    fn try_step(&mut self, visit: Visit, next: usize) -> Result<(), NoMemory> {
        let number = self.number(next);
        if number == 0 {
            self.way.push(visit)?;
            return self.open(next);
        }
        if number > self.number(visit.at) {
            self.set_number(visit.at, number);
        }
        self.way.push(Visit {
            tried: visit.tried.saturating_add(1),
            ..visit
        })
    }

    /// Takes a type off the way whose steps were all tried. One that keeps its number closes its group: itself and those
    /// that wait and were met after it.
    fn close(&mut self, visit: Visit) -> Result<(), NoMemory> {
        if self.number(visit.at) != visit.number {
            return self.waiting.push(visit.at);
        }
        for _ in 0..self.waiting.len() {
            let Some(last) = self.waiting.pop() else {
                break;
            };
            if self.number(last) > visit.number {
                self.waiting.push(last)?;
                break;
            }
            self.set_number(last, self.done);
        }
        self.set_number(visit.at, self.done);
        self.done = self.done.saturating_add(1);
        Ok(())
    }
}

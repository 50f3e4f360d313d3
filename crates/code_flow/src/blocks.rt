ghost use Rattle.std.specs.Prelude.{◌≡◌, ◌↔◌, List, map, IfOk, IsTrue};
ghost use Rattle.std.specs.List.{list_all};
ghost use Rattle.assembly_tree.specs.declared.body.Clause.{Clause};
ghost use Rattle.code_flow.specs.Blocks.{IsLevel};
ghost use Rattle.code_flow.specs.BlockTests.{spans_of, is_held, keeps, admits, is_clause_level, is_level_test, are_apart, is_within, lie_in, handling_all, handling_any, blocks_all, blocks_any, is_handling_apart, is_all_apart, has_same_try, is_apart, is_nested};

use assembly_tree::{Clause, ClauseKind};
use il_lists::{Items, NoMemory};
use std::alloc::Global;

/// A range of instructions, its end not included.
#[derive(Clone, Copy, Drop)]
pub struct Span {
    pub start: u32,
    pub end: u32,
}

/// What an exception clause handles (ECMA-335 II.19).
#[derive(Clone, Copy, Drop)]
pub enum Handling {
    Catch,
    Filter,
    Finally,
    Fault,
}

/// The blocks of an exception clause (ECMA-335 II.19).
#[derive(Clone, Copy, Drop)]
pub struct Spans {
    pub handling: Handling,
    /// The try.
    pub guarded: Span,
    pub handler: Span,
    /// From the filter's start to the handler's, where there is one.
    pub filter: Option<Span>,
}

impl Span {
    pub fn holds(self, k: u32) -> bool
        ensures { result ≡ is_held self k }
    {
        self.start <= k && k < self.end
    }

    /// Whether a step from `k` to `t` stays in it or out of it.
    pub fn keeps(self, k: u32, t: u32) -> bool
        ensures { result ≡ keeps k t self }
    {
        if self.holds(k) {
            self.holds(t)
        } else {
            !self.holds(t)
        }
    }

    /// Whether a step from `k` to `t` doesn't leave it, and enters it at its start alone.
    fn admits(self, k: u32, t: u32) -> bool
        ensures { result ≡ admits k t self }
    {
        if self.holds(k) {
            self.holds(t)
        } else {
            !self.holds(t) || self.start == t
        }
    }

    fn is_apart(self, other: Span) -> bool
        ensures { result ≡ are_apart self other }
    {
        self.end <= other.start || other.end <= self.start
    }

    /// Whether the other range lies in it.
    pub fn contains(self, other: Span) -> bool
        ensures { result ≡ is_within self other }
    {
        self.start <= other.start && other.end <= self.end
    }
}

impl Spans {
    pub fn of(clause: &Clause) -> Spans
        ensures { result ≡ spans_of clause.now }
    {
        let (handling, filter) = match clause.kind {
            ClauseKind::Filter(at) => (
                Handling::Filter,
                Some(Span {
                    start: at,
                    end: clause.handler_start,
                }),
            ),
            ClauseKind::Catch(_) => (Handling::Catch, None),
            ClauseKind::Finally => (Handling::Finally, None),
            ClauseKind::Fault => (Handling::Fault, None),
        };
        Spans {
            handling,
            guarded: Span {
                start: clause.try_start,
                end: clause.try_end,
            },
            handler: Span {
                start: clause.handler_start,
                end: clause.handler_end,
            },
            filter,
        }
    }

    /// Whether a step from `k` to `t` is level as far as this clause goes.
    fn is_level(&self, k: u32, t: u32) -> bool
        ensures { result ≡ is_clause_level k t self.now }
    {
        self.guarded.admits(k, t)
            && self.handler.keeps(k, t)
            && match self.filter {
                Some(filter) => filter.keeps(k, t),
                None => true,
            }
    }

    /// Whether handler and filter are apart from a range.
    fn is_handling_apart_from(&self, other: Span) -> bool
        ensures { result ≡ handling_all (are_apart other) self.now }
    {
        other.is_apart(self.handler)
            && match self.filter {
                Some(filter) => other.is_apart(filter),
                None => true,
            }
    }

    /// Whether all blocks are apart from a range.
    fn is_apart_from(&self, other: Span) -> bool
        ensures { result ≡ blocks_all (are_apart other) self.now }
    {
        other.is_apart(self.guarded) && self.is_handling_apart_from(other)
    }

    /// Whether all blocks lie in a range.
    fn lies_in(&self, other: Span) -> bool
        ensures { result ≡ lie_in self.now other }
    {
        other.contains(self.guarded)
            && other.contains(self.handler)
            && match self.filter {
                Some(filter) => other.contains(filter),
                None => true,
            }
    }

    /// Whether the handlers and filters of two clauses are apart.
    fn is_handling_apart(&self, other: &Spans) -> bool
        ensures { result ≡ is_handling_apart self.now other.now }
    {
        other.is_handling_apart_from(self.handler)
            && match self.filter {
                Some(filter) => other.is_handling_apart_from(filter),
                None => true,
            }
    }

    /// Whether all blocks of two clauses are apart.
    fn is_all_apart(&self, other: &Spans) -> bool
        ensures { result ≡ is_all_apart self.now other.now }
    {
        other.is_apart_from(self.guarded)
            && other.is_apart_from(self.handler)
            && match self.filter {
                Some(filter) => other.is_apart_from(filter),
                None => true,
            }
    }

    /// Whether all blocks lie in the handler or the filter of another clause.
    fn lies_in_handling(&self, other: &Spans) -> bool
        ensures { result ≡ handling_any (lie_in self.now) other.now }
    {
        self.lies_in(other.handler)
            || match other.filter {
                Some(filter) => self.lies_in(filter),
                None => false,
            }
    }

    /// Whether all blocks lie in one block of another clause.
    fn lies_in_block(&self, other: &Spans) -> bool
        ensures { result ≡ blocks_any (lie_in self.now) other.now }
    {
        self.lies_in(other.guarded) || self.lies_in_handling(other)
    }

    fn has_same_try(&self, other: &Spans) -> bool
        ensures { result ≡ has_same_try self.now other.now }
    {
        self.guarded.start == other.guarded.start && self.guarded.end == other.guarded.end
    }

    /// Whether the blocks are apart from each other.
    pub fn is_apart(&self) -> bool
        ensures { result ≡ is_apart self.now }
    {
        self.is_handling_apart_from(self.guarded)
            && match self.filter {
                Some(filter) => self.handler.is_apart(filter),
                None => true,
            }
    }

    /// Whether this clause and a later one nest.
    fn is_nested(&self, later: &Spans) -> bool
        ensures { result ≡ is_nested self.now later.now }
    {
        if self.has_same_try(later) {
            self.is_handling_apart(later)
        } else {
            self.is_all_apart(later) || self.lies_in_block(later) || later.lies_in_handling(self)
        }
    }
}

/// The blocks of each clause.
pub fn all_spans(alloc: Global, clauses: &[Clause]) -> Result<Items<Spans>, NoMemory>
    ensures { IfOk result (λ all. all ≡ map spans_of clauses.now) }
{
    let mut all = Items::with_capacity(alloc, clauses.len())?;
    for clause in clauses {
        all.push(Spans::of(clause))?;
    }
    Ok(all)
}

pub fn all_are_level(clauses: &[Spans], k: u32, t: u32) -> bool
    ensures { result ≡ is_level_test clauses.now k t }
{
    clauses.iter().all(|clause| clause.is_level(k, t))
}

/// Whether a step from `k` to `t` is level (ECMA-335 III.1.7).
pub fn is_level(clauses: &[Spans], k: u32, t: u32) -> bool
    ensures { (cs : List Clause) → clauses.now ≡ map spans_of cs → (IsTrue result ↔ IsLevel cs k t) }
{
    all_are_level(clauses, k, t)
}

/// Whether a clause nests with each of those behind it.
pub fn nests_with_all(first: &Spans, rest: &[Spans]) -> bool
    ensures { result ≡ list_all (is_nested first.now) rest.now }
{
    rest.iter().all(|later| first.is_nested(later))
}

//! The clauses of a body, and those of them near an instruction, found without a look at the others: for each region of sixteen
//! instructions the clauses that have a block in it.
ghost use Rattle.std.specs.Prelude.{◌≡◌, ◌↔◌, ◌<◌, ◌≤◌, ◌+◌, ◌/◌, ◌^◌, List, drop, length, map, max, min, slice_get, Some, IfOk, IsTrue, OnOk};
ghost use Rattle.std.specs.Option.{option_copied};
ghost use Rattle.std.specs.List.{list_all};
ghost use Rattle.assembly_tree.specs.declared.body.Clause.{Clause as TheClause};
ghost use Rattle.assembly_tree.specs.WellFormedBodies.{is_forward};
ghost use Rattle.code_flow.specs.Blocks.{ClausesNest};
ghost use Rattle.code_flow.specs.BlockTests.{are_nested, handling_all, is_nested, spans_of};
ghost use Rattle.code_flow.specs.Regions.{AddsClause, AddsTo, AreLowest, AreNear, EndBy, GrowsTo, HaveRegions, StartFrom, ends_by, no_region, starts_from, with_placed};

use crate::blocks::{Spans, all_spans, nests_with_all};
use assembly_tree::Clause;
use il_lists::{Items, NoMemory};
use std::alloc::Global;
use std::marker::Model;

/// A clause, and its place among all.
#[derive(Clone, Copy, Drop)]
pub struct Placed {
    pub place: u32,
    pub spans: Spans,
}

/// The clauses with a block in a region of the code, in their order, with their places and without.
#[derive(Drop)]
pub struct Region {
    pub placed: Items<Placed>,
    pub spans: Items<Spans>,
}

/// The blocks of each clause of a body. Contracts see the list of them.
#[derive(Drop)]
pub struct Clauses {
    all: Items<Spans>,
    /// For each clause where the first of its blocks and those of the later clauses begins.
    lowest: Vec<u32>,
    /// The regions of the code, as far as blocks reach.
    regions: Vec<Region>,
    /// A region behind the last.
    none: Region,
}

impl Model for Clauses {
    ghost use Rattle.std.specs.Prelude.{List, ◌≡◌};
    ghost use Rattle.code_flow.specs.declared.blocks.Spans.{Spans};
    ghost use Rattle.code_flow.specs.Regions.{AreLowest, HaveRegions, no_region};

    ghost Value = { List Spans };

    ghost view = { λ c. c.all };

    ghost invariant = { λ c. HaveRegions c.all c.regions.items × (c.none ≡ no_region) × AreLowest c.all c.lowest.items };
}

/// How many instructions a region has.
const WIDTH: u32 = 16;

impl Region {
    /// A region without clauses. Takes no memory.
    fn new(alloc: Global) -> Region
        ensures { result ≡ no_region }
    {
        Region {
            placed: Items::new(alloc),
            spans: Items::new(alloc),
        }
    }

    /// Adds a clause behind the others.
    fn add(&mut self, place: u32, clause: &Spans) -> Result<(), NoMemory>
        ensures { OnOk result (self.new ≡ with_placed self.old place clause.now) }
    {
        let spans = *clause;
        self.placed.push(Placed { place, spans })?;
        self.spans.push(spans)?;
        Ok(())
    }
}

impl Spans {
    /// Where the first of its blocks begins.
    fn first(&self) -> u32
        ensures { StartFrom result self.now }
    {
        let first = self.guarded.start.min(self.handler.start);
        match self.filter {
            Some(filter) => first.min(filter.start),
            None => first,
        }
    }

    /// Where the last of its blocks ends.
    fn end(&self) -> u32
        ensures { EndBy result self.now }
    {
        let end = self.guarded.end.max(self.handler.end);
        match self.filter {
            Some(filter) => end.max(filter.end),
            None => end,
        }
    }
}

impl Spans {
    /// Where its handler begins, or its filter where that is lower.
    fn handled_from(&self) -> u32
        ensures { IsTrue (handling_all (starts_from result) self.now) }
    {
        match self.filter {
            Some(filter) => self.handler.start.min(filter.start),
            None => self.handler.start,
        }
    }

    /// Where its handler ends, or its filter where that is higher.
    fn handled_to(&self) -> u32
        ensures { IsTrue (handling_all (ends_by result) self.now) }
    {
        match self.filter {
            Some(filter) => self.handler.end.max(filter.end),
            None => self.handler.end,
        }
    }
}

impl Clauses {
    /// The blocks of these clauses.
    pub fn of(alloc: Global, clauses: &[Clause]) -> Result<Clauses, NoMemory>
        requires { length clauses.now < 2 ^ 32 }
        ensures { IfOk result (λ c. c ≡ map spans_of clauses.now) }
    {
        let all = all_spans(alloc, clauses)?;
        Clauses::over(alloc, all)
    }

    /// The clauses with these blocks.
    pub fn over(alloc: Global, all: Items<Spans>) -> Result<Clauses, NoMemory>
        requires { length all < 2 ^ 32 }
        ensures { IfOk result (λ c. c ≡ all) }
    {
        let regions = regions_of(alloc, &all)?;
        let lowest = lowest_of(alloc, &all)?;
        Ok(Clauses {
            all,
            lowest,
            regions,
            none: Region::new(alloc),
        })
    }

    /// The blocks of each clause. Takes no memory.
    pub fn as_slice(&self) -> &[Spans]
        ensures { result.now ≡ self.now }
    {
        self.all.as_slice()
    }

    /// The number of clauses. Takes no memory.
    pub fn len(&self) -> usize
        ensures { result ≡ length self.now }
    {
        self.all.len()
    }

    /// The clause at a place. Takes no memory.
    pub fn placed(&self, place: u32) -> Placed
        requires { place < length self.now }
        ensures place { result.place ≡ place }
        ensures spans { slice_get self.now place ≡ Some result.spans }
    {
        let spans = *self.all.at(place as usize);
        Placed { place, spans }
    }

    /// The clauses with a block that holds an instruction, and maybe others. Takes no memory.
    pub fn near(&self, k: u32) -> &Region
        ensures { AreNear k self.now result.now }
    {
        match region_at(self.regions.as_slice(), k / WIDTH) {
            Some(region) => region,
            None => &self.none,
        }
    }
}

impl Clauses {
    /// Whether a clause nests with each of those behind it, which are all from place `k` on. Where these begin behind its end,
    /// none is looked at.
    fn nests_behind(&self, clause: &Spans, behind: &[Spans], k: usize) -> bool
        requires { behind.now ≡ drop k self.now }
        ensures { result ≡ list_all (is_nested clause.now) behind.now }
    {
        if let Some(low) = lowest_at(self.lowest.as_slice(), k) {
            if clause.end() <= low {
                return true;
            }
        }
        nests_with_all(clause, behind)
    }
}

/// The region at a place, where there is one.
fn region_at(regions: &[Region], place: u32) -> Option<&Region>
    ensures { option_copied result ≡ slice_get regions.now place }
{
    regions.get(place as usize)
}

/// The number at a place, where there is one.
fn lowest_at(lowest: &[u32], place: usize) -> Option<u32>
    ensures { result ≡ slice_get lowest.now place }
{
    lowest.get(place).copied()
}

/// Whether the clauses nest, and the blocks of each are apart.
fn all_nest(clauses: &Clauses) -> bool
    ensures { result ≡ are_nested clauses.now }
{
    let mut rest = clauses.as_slice();
    let mut k = 0usize;
    while let [first, behind @ ..] = rest {
        k += 1;
        if !first.is_apart() || !clauses.nests_behind(first, behind, k) {
            return false;
        }
        rest = behind;
    }
    true
}

/// Whether the clauses nest (ECMA-335 I.12.4.2.7). Takes no memory.
pub fn nest(clauses: &Clauses) -> bool
    ensures { (cs : List TheClause) → clauses.now ≡ map spans_of cs → IsTrue (list_all is_forward cs) → (IsTrue result ↔ ClausesNest cs) }
{
    all_nest(clauses)
}

/// The lower of two numbers.
fn lower(a: u32, b: u32) -> u32
    ensures { result ≡ min a b }
{
    if a <= b { a } else { b }
}

/// The higher of two numbers.
fn higher(a: u32, b: u32) -> u32
    ensures { result ≡ max a b }
{
    if a <= b { b } else { a }
}

/// The lesser of two numbers.
fn lesser(a: u32, b: u32) -> u32
    ensures first { result ≤ a }
    ensures second { result ≤ b }
{
    if a <= b { a } else { b }
}

/// For each clause where the first of its blocks and those of the later ones begins.
fn lowest_of(alloc: Global, clauses: &Items<Spans>) -> Result<Vec<u32>, NoMemory>
    ensures { IfOk result (λ lowest. AreLowest clauses.now lowest.items) }
{
    let mut lowest = vec![in alloc; 0u32; clauses.len()]?;
    let mut least = u32::MAX;
    let mut k = clauses.len();
    while 0 < k {
        k -= 1;
        let first = clauses.at(k).first();
        least = lesser(least, first);
        lowest[k] = least;
    }
    Ok(lowest)
}

/// The regions of these clauses.
fn regions_of(alloc: Global, clauses: &Items<Spans>) -> Result<Vec<Region>, NoMemory>
    requires { length clauses.now < 2 ^ 32 }
    ensures { IfOk result (λ r. HaveRegions clauses.now r.items) }
{
    let mut regions = Vec::new(alloc);
    let count = clauses.len() as u32;
    for place in 0..count {
        let clause = clauses.at(place as usize);
        add_clause(alloc, &mut regions, place, clause)?;
    }
    Ok(regions)
}

/// The regions from one on that lie before another.
#[derive(Clone, Copy, Drop)]
struct Reach {
    first: u32,
    end: u32,
}

/// The regions from that of an instruction on to that of another.
fn reach_of(start: u32, end: u32) -> Reach
    ensures order { result.first ≤ result.end }
    ensures first { result.first ≡ start / 16 }
    ensures end { end / 16 + 1 ≤ result.end }
{
    let first = start / WIDTH;
    let end = higher(first, end / WIDTH + 1);
    Reach { first, end }
}

/// Adds a clause to the regions of its try and of its handler and filter.
fn add_clause(
    alloc: Global,
    regions: &mut Vec<Region>,
    place: u32,
    clause: &Spans,
) -> Result<(), NoMemory>
    ensures { OnOk result (AddsClause place clause.now regions.old.items regions.new.items) }
{
    let tried = reach_of(clause.guarded.start, clause.guarded.end);
    let handled = reach_of(clause.handled_from(), clause.handled_to());
    let count = higher(tried.end, handled.end);
    grow_to(alloc, regions, count as usize)?;
    add_to(regions, tried.first, tried.end, place, clause)?;
    let before = higher(handled.first, lower(handled.end, tried.first));
    add_to(regions, handled.first, before, place, clause)?;
    let behind = lower(handled.end, higher(handled.first, tried.end));
    add_to(regions, behind, handled.end, place, clause)
}

/// Adds regions without clauses until there are as many.
fn grow_to(alloc: Global, regions: &mut Vec<Region>, count: usize) -> Result<(), NoMemory>
    ensures { OnOk result (GrowsTo count regions.old.items regions.new.items) }
{
    while regions.len() < count {
        regions.push(Region::new(alloc))?;
    }
    Ok(())
}

/// Adds a clause to the regions from `first` on that lie before `end`.
fn add_to(
    regions: &mut Vec<Region>,
    first: u32,
    end: u32,
    place: u32,
    clause: &Spans,
) -> Result<(), NoMemory>
    requires order { first ≤ end }
    requires many { end ≤ length regions.old.items }
    ensures adds { OnOk result (AddsTo first end place clause.now regions.old.items regions.new.items) }
    ensures many { OnOk result (length regions.new.items ≡ length regions.old.items) }
{
    for k in first..end {
        regions[k as usize].add(place, clause)?;
    }
    Ok(())
}

ghost use Rattle.std.specs.Prelude.{◌≡◌, ◌<◌, ◌^◌, ◌+◌, ◌++◌, ℕ, List, [], false, drop, map, length, slice_get, Some, IfOk, OnOk};
ghost use Rattle.std.specs.List.{flat_map};
ghost use Rattle.code_flow.specs.Edges.{targets};
ghost use Rattle.code_flow.specs.BlockTests.{is_held};
ghost use Rattle.code_flow.specs.GoingTests.{AddsSame, AreExits, going, is_finally, is_crossed, goes_through, leave_to, leaves_at, leaves_from, on_behind, is_ended, ends_from};
ghost use Rattle.code_flow.specs.Leaving.{HaveExits, ended_by, goes_behind};
ghost use Rattle.code_flow.specs.declared.goings.Carried.TheVariants as carries;
ghost use Rattle.code_flow.specs.declared.leaving.Leave.{Leave as TheLeave};

use crate::blocks::{Handling, Span, Spans};
use crate::clauses::{Clauses, Placed};
use crate::flowing::each_once;
use crate::goings::{Carried, Going};
use crate::operation::{Operation, operation_of};
use crate::places::is_innermost_near;
use assembly_tree::{Ins, Operand};
use il_lists::{Items, NoMemory, Numbers};
use std::alloc::Global;
use std::marker::Model;

/// A `leave` and its target.
#[derive(Clone, Copy, Drop)]
pub struct Leave {
    pub at: u32,
    pub to: u32,
}

/// Each `leave` of a body with its target, in order. Contracts see the list of them.
#[derive(Drop)]
pub struct Leaves {
    all: Items<Leave>,
    /// For each instruction, and behind the last, how many come before it.
    starts: Vec<usize>,
}

impl Model for Leaves {
    ghost use Rattle.std.specs.Prelude.{List};
    ghost use Rattle.code_flow.specs.declared.leaving.Leave.{Leave};
    ghost use Rattle.code_flow.specs.Leaving.{AreStarts};

    ghost Value = { List Leave };

    ghost view = { λ l. l.all };

    ghost invariant = { λ l. AreStarts l.all l.starts.items };
}

/// The number that stands for an instruction.
fn count_at(counts: &[usize], k: u32) -> Option<usize>
    ensures { result ≡ slice_get counts.now k }
{
    counts.get(k as usize).copied()
}

impl Leaves {
    /// Those in a range, or more. Takes no memory.
    fn within(&self, span: Span) -> &[Leave]
        ensures { (f : Leave → List ℕ) → ((l : Leave) → is_held span l.at ≡ false → f l ≡ []) → flat_map f result.now ≡ flat_map f self.now }
    {
        let all = self.all.as_slice();
        let starts = self.starts.as_slice();
        let Some(first) = count_at(starts, span.start) else {
            return all;
        };
        let Some(end) = count_at(starts, span.end) else {
            return all;
        };
        if first <= end && end <= all.len() {
            &all[first..end]
        } else {
            all
        }
    }
}

impl Handling {
    fn is_finally(self) -> bool
        ensures { result ≡ is_finally self }
    {
        match self {
            Handling::Finally => true,
            Handling::Catch | Handling::Filter | Handling::Fault => false,
        }
    }
}

impl Spans {
    /// Whether it is a finally clause whose try a `leave` from `l` to `t` leaves.
    fn is_crossed(&self, l: u32, t: u32) -> bool
        ensures { result ≡ is_crossed l t self.now }
    {
        self.handling.is_finally() && self.guarded.holds(l) && !self.guarded.holds(t)
    }

    /// Whether it is a finally clause whose handler is the innermost block that holds `k`.
    fn is_ended(&self, clauses: &Clauses, k: u32) -> bool
        ensures { result ≡ is_ended clauses.now k self.now }
    {
        self.handling.is_finally() && is_innermost_near(clauses, k, self.handler)
    }
}

/// The targets of a branch, a switch or a `leave`. Takes no memory.
pub fn targets_of(operand: &Operand) -> &[u32]
    ensures { result.now ≡ targets operand.now }
{
    match operand {
        Operand::Target(to) => std::slice::from_ref(to),
        Operand::Targets(all) => all.get().as_slice(),
        _ => &[],
    }
}

/// Where a `leave` goes: to the handler of the first of the clauses that it crosses, and
/// else to its target.
fn goes_through(clauses: &[Spans], leave: u32, target: u32) -> u32
    ensures { result ≡ goes_through leave target clauses.now }
{
    for clause in clauses {
        if clause.is_crossed(leave, target) {
            return clause.handler.start;
        }
    }
    target
}

/// The same, by a look at the clauses near the `leave`.
fn leads_to(clauses: &Clauses, leave: u32, target: u32) -> u32
    ensures { result ≡ goes_through leave target clauses.now }
{
    goes_through(clauses.near(leave).spans.as_slice(), leave, target)
}

/// Adds where a `leave` at `k` goes.
pub fn add_left(
    goings: &mut Items<Going>,
    clauses: &Clauses,
    k: u32,
    targets: &[u32],
) -> Result<(), NoMemory>
    ensures { OnOk result (goings.new ≡ goings.old ++ map (λ t. going carries.Nothing (goes_through k t clauses.now)) targets.now) }
{
    for target in targets {
        let to = leads_to(clauses, k, *target);
        goings.push(Going {
            to,
            carries: Carried::Nothing,
        })?;
    }
    Ok(())
}

fn add_leaves(leaves: &mut Items<Leave>, at: u32, targets: &[u32]) -> Result<(), NoMemory>
    ensures { OnOk result (leaves.new ≡ leaves.old ++ map (leave_to at) targets.now) }
{
    for target in targets {
        leaves.push(Leave { at, to: *target })?;
    }
    Ok(())
}

/// Adds the targets of the instruction at a place, where it is a `leave`.
fn add_leaves_at(leaves: &mut Items<Leave>, at: u32, ins: &Ins) -> Result<(), NoMemory>
    ensures { OnOk result (leaves.new ≡ leaves.old ++ leaves_at at ins.now) }
{
    match operation_of(ins.op) {
        Operation::Leave => add_leaves(leaves, at, targets_of(&ins.operand)),
        _ => Ok(()),
    }
}

/// Each `leave` of the code with its target.
pub fn leaves_of(alloc: Global, code: &[Ins]) -> Result<Leaves, NoMemory>
    requires { length code.now < 2 ^ 32 }
    ensures { IfOk result (λ leaves. leaves ≡ leaves_from 0 code.now) }
{
    let mut all = Items::new(alloc);
    let mut starts = Vec::with_capacity(alloc, code.len() + 1)?;
    let mut at = 0u32;
    for ins in code {
        starts.push(all.len())?;
        add_leaves_at(&mut all, at, ins)?;
        at += 1;
    }
    starts.push(all.len())?;
    Ok(Leaves { all, starts })
}

/// Where a `leave` goes on from the handler of the clause at a place, by these clauses alone: to the handler of the first of
/// them behind it that the `leave` crosses, and else to its target.
fn goes_behind(placed: &[Placed], place: u32, leave: Leave) -> u32
    ensures { result ≡ goes_behind place leave placed.now }
{
    for clause in placed {
        if place < clause.place && clause.spans.is_crossed(leave.at, leave.to) {
            return clause.spans.handler.start;
        }
    }
    leave.to
}

/// Where a `leave` goes on from the handler of the clause at a place.
fn goes_on(clauses: &Clauses, place: u32, leave: Leave) -> u32
    ensures { result ≡ goes_through leave.at leave.to (drop (place + 1) clauses.now) }
{
    goes_behind(clauses.near(leave.at).placed.as_slice(), place, leave)
}

/// Adds where a `leave` goes on from a clause, if it crosses it.
fn add_exit(
    targets: &mut Vec<u32>,
    clauses: &Clauses,
    clause: &Placed,
    leave: Leave,
) -> Result<(), NoMemory>
    ensures { OnOk result (targets.new.items ≡ targets.old.items ++ on_behind clauses.now clause.now.place clause.now.spans leave) }
{
    if clause.spans.is_crossed(leave.at, leave.to) {
        targets.push(goes_on(clauses, clause.place, leave))?;
    }
    Ok(())
}

/// Adds where each of these leaves goes on from a clause, if it crosses it.
fn add_exits(
    targets: &mut Vec<u32>,
    clauses: &Clauses,
    clause: &Placed,
    leaves: &[Leave],
) -> Result<(), NoMemory>
    ensures { OnOk result (targets.new.items ≡ targets.old.items ++ flat_map (on_behind clauses.now clause.now.place clause.now.spans) leaves.now) }
{
    for leave in leaves {
        add_exit(targets, clauses, clause, *leave)?;
    }
    Ok(())
}

/// The targets to which leaves go on from a clause, each once.
fn exits_from(
    alloc: Global,
    clauses: &Clauses,
    leaves: &Leaves,
    clause: &Placed,
) -> Result<Numbers, NoMemory>
    ensures { IfOk result (λ ts. AreExits clauses.now leaves.now clause.now.place clause.now.spans ts) }
{
    let mut targets = Vec::new(alloc);
    let inside = leaves.within(clause.spans.guarded);
    add_exits(&mut targets, clauses, clause, inside)?;
    let targets = each_once(targets);
    let once = Items::from_slice(alloc, targets.as_slice())?;
    Ok(once)
}

/// For each clause the targets to which leaves go on from it.
pub type Exits = Items<Numbers>;

/// The targets to which leaves go on from each clause; none from one that isn't a finally clause.
pub fn exits_of(alloc: Global, clauses: &Clauses, leaves: &Leaves) -> Result<Exits, NoMemory>
    requires { length clauses.now < 2 ^ 32 }
    ensures { IfOk result (λ exits. HaveExits clauses.now leaves.now exits) }
{
    let mut exits = Items::new(alloc);
    let count = clauses.len() as u32;
    for place in 0..count {
        let clause = clauses.placed(place);
        let targets = exits_from(alloc, clauses, leaves, &clause)?;
        exits.push(targets)?;
    }
    Ok(exits)
}

/// Adds edges to targets.
fn add_targets(goings: &mut Items<Going>, targets: &[u32]) -> Result<(), NoMemory>
    ensures { OnOk result (goings.new ≡ goings.old ++ map (going carries.Nothing) targets.now) }
{
    for to in targets {
        goings.push(Going {
            to: *to,
            carries: Carried::Nothing,
        })?;
    }
    Ok(())
}

/// Adds where an `endfinally` at `k` goes, if it ends the handler of this clause.
fn add_ended_of(
    goings: &mut Items<Going>,
    clauses: &Clauses,
    exits: &Exits,
    k: u32,
    clause: &Placed,
) -> Result<(), NoMemory>
    ensures { (leaves : List Leave) → HaveExits clauses.now leaves exits.now → slice_get clauses.now clause.now.place ≡ Some clause.now.spans → OnOk result (AddsSame goings.old goings.new (ended_by clauses.now leaves k clause.now)) }
{
    if !clause.spans.is_ended(clauses, k) {
        return Ok(());
    }
    let Some(targets) = exits.get(clause.place as usize) else {
        return Ok(());
    };
    add_targets(goings, targets.as_slice())?;
    Ok(())
}

/// Adds where an `endfinally` at `k` goes.
pub fn add_ended(
    goings: &mut Items<Going>,
    clauses: &Clauses,
    exits: &Exits,
    k: u32,
) -> Result<(), NoMemory>
    ensures { (leaves : List Leave) → HaveExits clauses.now leaves exits.now → OnOk result (AddsSame goings.old goings.new (ends_from clauses.now leaves k clauses.now)) }
{
    let near = &clauses.near(k).placed;
    for j in 0..near.len() {
        let clause = near.at(j);
        add_ended_of(goings, clauses, exits, k, clause)?;
    }
    Ok(())
}

ghost use Rattle.std.specs.Prelude.{◌≡◌, ◌↔◌, ℕ, ◌<◌, ◌-◌, ◌^◌, List, map, length, slice_get, slice_index_or, false, IsTrue, Some};
ghost use Rattle.std.specs.List.{list_any};
ghost use Rattle.code_flow.specs.Blocks.{ClausesNest};
ghost use Rattle.code_flow.specs.BlockTests.{is_level_test, spans_of};
ghost use Rattle.code_flow.specs.CodeRules.{RunsOff, ReturnsInside, BranchesAcross, FallsAcross, IsMisplaced, IsUnverified};
ghost use Rattle.code_flow.specs.CodeTests.{runs_off_by, has_inside, is_inside, is_return, returns_inside_by, goes_across, any_across, branches_across_by, falls_across_by, leaves_badly, misplaced_by, is_unlisted, unverified_by};
ghost use Rattle.code_flow.specs.Edges.{targets};
ghost use Rattle.code_flow.specs.Frames.{Frame};
ghost use Rattle.code_flow.specs.Marks.{HaveMarks};
ghost use Rattle.code_flow.specs.Operations.{operation};
ghost use Rattle.code_flow.specs.Rules.{calls, states_this};

use crate::blocks::{Spans, all_are_level};
use crate::clauses::Clauses;
use crate::leaving::targets_of;
use crate::operation::{Operation, operation_of};
use crate::places::{all_release, any_ends_filter, any_ends_finally, any_rethrows, both};
use assembly_tree::{Ins, Operand};

impl Operation {
    pub fn is_return(self) -> bool
        ensures { result ≡ is_return self }
    {
        match self {
            Operation::Return => true,
            _ => false,
        }
    }

    fn is_unlisted(self) -> bool
        ensures { result ≡ is_unlisted self }
    {
        match self {
            Operation::Unlisted => true,
            _ => false,
        }
    }

    /// Whether it calls a method.
    fn calls(self) -> bool
        ensures { result ≡ calls self }
    {
        match self {
            Operation::Call | Operation::CallVirtual | Operation::NewObject => true,
            _ => false,
        }
    }
}

impl Spans {
    /// Whether some block holds `k`.
    fn has_inside(&self, k: u32) -> bool
        ensures { result ≡ has_inside k self.now }
    {
        self.guarded.holds(k)
            || self.handler.holds(k)
            || match self.filter {
                Some(filter) => filter.holds(k),
                None => false,
            }
    }
}

/// Whether the signature of the method that is named states the type of `this`.
fn states_this(operand: &Operand) -> bool
    ensures { result ≡ states_this operand.now }
{
    match operand {
        Operand::Method(method) => method.get().sig.explicit_this,
        _ => false,
    }
}

fn falls_off(count: u32, k: u32, ins: &Ins) -> bool
    requires { k < count }
    ensures { result ≡ runs_off_by count k (operation ins.now.op) }
{
    operation_of(ins.op).falls() && k + 1 == count
}

fn any_inside_among(clauses: &[Spans], k: u32) -> bool
    ensures { result ≡ is_inside clauses.now k }
{
    clauses.iter().any(|clause| clause.has_inside(k))
}

fn any_inside(clauses: &Clauses, k: u32) -> bool
    ensures { result ≡ is_inside clauses.now k }
{
    any_inside_among(clauses.near(k).spans.as_slice(), k)
}

fn all_near_are_level(clauses: &Clauses, k: u32, t: u32) -> bool
    ensures { result ≡ is_level_test clauses.now k t }
{
    let around = all_are_level(clauses.near(k).spans.as_slice(), k, t);
    let beyond = all_are_level(clauses.near(t).spans.as_slice(), k, t);
    both(around, beyond)
}

fn returns_in_block(clauses: &Clauses, k: u32, ins: &Ins) -> bool
    ensures { result ≡ returns_inside_by clauses.now k (operation ins.now.op) }
{
    operation_of(ins.op).is_return() && any_inside(clauses, k)
}

fn goes_across(clauses: &Clauses, k: u32, t: u32) -> bool
    ensures { result ≡ goes_across clauses.now k t }
{
    !all_near_are_level(clauses, k, t)
}

fn any_across(clauses: &Clauses, k: u32, targets: &[u32]) -> bool
    ensures { result ≡ any_across clauses.now k targets.now }
{
    targets
        .iter()
        .any(|target| goes_across(clauses, k, *target))
}

fn branches_out(clauses: &Clauses, k: u32, ins: &Ins) -> bool
    ensures { result ≡ branches_across_by clauses.now k ins.now }
{
    operation_of(ins.op).branches() && any_across(clauses, k, targets_of(&ins.operand))
}

/// Whether there is a mark at a place.
fn is_marked(marks: &[bool], at: u32) -> bool
    ensures { result ≡ slice_index_or marks.now at false }
{
    match marks.get(at as usize) {
        Some(mark) => *mark,
        None => false,
    }
}

fn falls_out(clauses: &Clauses, marks: &[bool], k: u32, ins: &Ins) -> bool
    requires { k < 2 ^ 32 - 1 }
    ensures { result ≡ falls_across_by clauses.now marks.now k (operation ins.now.op) }
{
    operation_of(ins.op).falls() && is_marked(marks, k + 1) && goes_across(clauses, k, k + 1)
}

fn leaves_badly(clauses: &Clauses, k: u32, t: u32) -> bool
    ensures { result ≡ leaves_badly clauses.now k t }
{
    !all_release(clauses, k, t)
}

fn any_leaves_badly(clauses: &Clauses, k: u32, targets: &[u32]) -> bool
    ensures { result ≡ list_any (leaves_badly clauses.now k) targets.now }
{
    targets
        .iter()
        .any(|target| leaves_badly(clauses, k, *target))
}

fn out_of_place(clauses: &Clauses, k: u32, ins: &Ins) -> bool
    requires { k < 2 ^ 32 - 1 }
    ensures { result ≡ misplaced_by clauses.now k (targets ins.now.operand) (operation ins.now.op) }
{
    match operation_of(ins.op) {
        Operation::Leave => any_leaves_badly(clauses, k, targets_of(&ins.operand)),
        Operation::Rethrow => !any_rethrows(clauses, k),
        Operation::EndFinally => !any_ends_finally(clauses, k),
        Operation::EndFilter => !any_ends_filter(clauses, k),
        _ => false,
    }
}

fn never_verified(ins: &Ins) -> bool
    ensures { result ≡ unverified_by (operation ins.now.op) ins.now.operand }
{
    let does = operation_of(ins.op);
    does.is_unlisted() || (does.calls() && states_this(&ins.operand))
}

/// Whether instruction `k` of `count`, the last, falls past the end of the code (V6).
pub fn runs_off(count: u32, k: u32, ins: &Ins) -> bool
    requires { k < count }
    ensures { (f : Frame) → slice_get f.code k ≡ Some ins.now → length f.code ≡ count → (IsTrue result ↔ RunsOff f k) }
{
    falls_off(count, k, ins)
}

/// Whether instruction `k` is a `ret` in a block (V11).
pub fn returns_inside(clauses: &Clauses, k: u32, ins: &Ins) -> bool
    ensures { (f : Frame) → slice_get f.code k ≡ Some ins.now → clauses.now ≡ map spans_of f.clauses → (IsTrue result ↔ ReturnsInside f k) }
{
    returns_in_block(clauses, k, ins)
}

/// Whether instruction `k` is a branch or switch with a target to which the step isn't level (V12).
pub fn branches_across(clauses: &Clauses, k: u32, ins: &Ins) -> bool
    ensures { (f : Frame) → slice_get f.code k ≡ Some ins.now → clauses.now ≡ map spans_of f.clauses → (IsTrue result ↔ BranchesAcross f k) }
{
    branches_out(clauses, k, ins)
}

/// Whether instruction `k` falls to the next, and the step isn't level (V13); `marks` tell to which instructions control
/// may come from elsewhere.
pub fn falls_across(clauses: &Clauses, marks: &[bool], k: u32, ins: &Ins) -> bool
    requires { k < 2 ^ 32 - 1 }
    ensures { (f : Frame) → slice_get f.code k ≡ Some ins.now → HaveMarks f marks.now → clauses.now ≡ map spans_of f.clauses → (IsTrue result ↔ FallsAcross f k) }
{
    falls_out(clauses, marks, k, ins)
}

/// Whether instruction `k` is a `leave`, `rethrow`, `endfinally` or `endfilter` out of its place (V15).
pub fn is_misplaced(clauses: &Clauses, k: u32, ins: &Ins) -> bool
    requires { k < 2 ^ 32 - 1 }
    ensures { (f : Frame) → slice_get f.code k ≡ Some ins.now → clauses.now ≡ map spans_of f.clauses → (IsTrue result ↔ IsMisplaced f k) }
{
    out_of_place(clauses, k, ins)
}

/// Whether an instruction is never verified, by itself or by the signature that it names (V18).
pub fn is_unverified(ins: &Ins) -> bool
    ensures { (f : Frame) (k : ℕ) → slice_get f.code k ≡ Some ins.now → (IsTrue result ↔ IsUnverified f k) }
{
    never_verified(ins)
}

//! The least typing of a body, by the instructions that wait.
ghost use Rattle.std.specs.Prelude.{◌≡◌, ℕ, List, ◌+◌, ◌-◌, ◌*◌, ◌<◌, ◌≤◌, ◌^◌, [], ◌∷◌, length, min, replicate, slice_get, Some, IfOk, OnOk};
ghost use Rattle.std.specs.List.{All};
ghost use Rattle.type_hierarchy.specs.World.{hierarchy, Stays};
ghost use Rattle.code_flow.specs.Goings.{IsGoings};
ghost use Rattle.body_verifier.specs.StepBound.{AreEdges, step_bound};
ghost use Rattle.stack_rows.specs.RowMeanings.{row_meant, IsRowWithin};
ghost use Rattle.stack_states.specs.StateMeanings.{state_meant, IsStateWithin, state_depth, depth_or_none, typing_of};
ghost use Rattle.assembly_tree.specs.declared.body.Ins.{Ins};
ghost use Rattle.code_flow.specs.Rows.{row_of};
ghost use Rattle.body_verifier.specs.Potential.{total};
ghost use Rattle.code_flow.specs.Typings as typings;
ghost use Rattle.body_verifier.specs.Ways.{Setup, IsSetUp, IsUnderWay, IsSolved, IsCost, IsDepth, FlowsApart, HasNoMore, HasLessAt, flows, AreRows, AreStated, AreStatedFor, AreWays, AreAllWays, Raises, charge, depth_charges, step_budget};

use crate::stated::Stated;
use code_flow::goings::{Going, Goings};
use il_base::Steps;
use il_lists::{Items, NoMemory};
use stack_rows::row::Row;
use stack_states::effect::stack_after;
use stack_states::stack::Stack;
use stack_states::state::{State, meet};
use stack_states::worklist::Worklist;
use std::alloc::Global;
use type_order::keys_keep_their_types;
use type_order::types::World;

/// What is known after an instruction with that row.
fn state_after(alloc: Global, w: &mut World, row: &Row, state: &State) -> Result<State, NoMemory>
    requires row { IsRowWithin (length w.old.nodes) row.now }
    requires state { IsStateWithin (length w.old.nodes) state.now }
    ensures ok { IfOk result (λ s. IsStateWithin (length w.new.nodes) s × (state_meant w.new.nodes s ≡ flows (row_meant w.old.nodes row.now) (state_meant w.old.nodes state.now))) }
    ensures stays { Stays w.old w.new }
{
    match state {
        State::Unreached => Ok(State::Unreached),
        State::Clash => Ok(State::Clash),
        State::Stack(stack) => {
            let left = stack_after(alloc, w, row, stack)?;
            Ok(State::Stack(left))
        }
    }
}

/// Joins what comes along an edge to what is known before `t`, and lets `t` wait where that changes.
fn raise(
    alloc: Global,
    w: &mut World,
    states: &mut Items<State>,
    list: &mut Worklist,
    t: u32,
    comes: &State,
    steps: &mut Steps,
) -> Result<(), NoMemory>
    requires within { All (IsStateWithin (length w.old.nodes)) states.old }
    requires comes { IsStateWithin (length w.old.nodes) comes.now }
    requires t { t < length states.old }
    requires waits { t < list.old.count }
    requires room { steps.old + min (depth_or_none (slice_get states.old t)) (state_depth comes.now) ≤ 2 ^ 127 }
    ensures ok { OnOk result (Raises (hierarchy w.old) w.old.nodes states.old list.old t comes.now w.new.nodes states.new list.new) }
    ensures stays { Stays w.old w.new }
    ensures steps { steps.new ≤ steps.old + min (depth_or_none (slice_get states.old t)) (state_depth comes.now) }
{
    if let Some(met) = meet(alloc, w, states.at(t as usize), comes, steps)? {
        states.set(t as usize, met);
        list.push(t);
    }
    Ok(())
}

/// Joins what comes along each edge of instruction `k`, which waits no longer, to what is known where it leads.
fn follow(
    alloc: Global,
    w: &mut World,
    states: &mut Items<State>,
    list: &mut Worklist,
    k: u32,
    row: &Row,
    goings: &[Going],
    stated: &Stated,
    steps: &mut Steps,
) -> Result<(), NoMemory>
    ghost at: { Setup }
    requires setup { IsSetUp (hierarchy w.old) at }
    requires under { IsUnderWay at w.old.nodes states.old (k ∷ list.old.numbers) }
    requires k { k < length at.frame.code }
    requires count { list.old.count ≡ length at.frame.code }
    requires row { IsRowWithin (length w.old.nodes) row.now }
    requires means { (i : Ins) → slice_get at.frame.code k ≡ Some i → row_meant w.old.nodes row.now ≡ row_of at.frame k i }
    requires stated { AreStated w.old.nodes stated.now }
    requires goings { AreWays w.old.nodes stated.now at.frame k goings.now }
    requires room { steps.old + charge (length at.frame.code) goings.now ≤ 2 ^ 127 }
    ensures ok { OnOk result (IsUnderWay at w.new.nodes states.new list.new.numbers) }
    ensures no_more { OnOk result (HasNoMore at (typing_of w.old.nodes states.old) list.old.numbers (typing_of w.new.nodes states.new) list.new.numbers) }
    ensures count { OnOk result (list.new.count ≡ list.old.count) }
    ensures stays { Stays w.old w.new }
    ensures steps { steps.new ≤ steps.old + charge (length at.frame.code) goings.now }
    ensures less { (d : ℕ) → IsDepth at.frame d → OnOk result (HasLessAt d at (typing_of w.old.nodes states.old) list.old.numbers (typing_of w.new.nodes states.new) list.new.numbers) }
    ensures few { (d m : ℕ) → IsDepth at.frame d → ((typing_of w.old.nodes states.old k ≡ typings.unreached → ⊥) → depth_charges d goings.now ≤ m) → steps.new ≤ steps.old + m }
{
    keys_keep_their_types();
    let known = states.at(k as usize);
    if known.is_unreached() {
        return Ok(());
    }
    let after = state_after(alloc, w, row, known)?;
    for going in goings {
        keys_keep_their_types();
        let comes = stated.along(going.carries, &after);
        raise(alloc, w, states, list, going.to, comes, steps)?;
    }
    Ok(())
}

/// What is known before each of `count` instructions at first: that the first one is reached, with nothing
/// on the stack.
fn first_states(alloc: Global, count: usize) -> Result<Items<State>, NoMemory>
    requires { 0 < count }
    ensures { IfOk result (λ states. states ≡ State.Stack [] ∷ replicate (count - 1) State.Unreached) }
{
    let mut states = Items::with_capacity(alloc, count)?;
    states.push(State::Stack(Stack::new()))?;
    for _ in 1..count {
        states.push(State::Unreached)?;
    }
    Ok(states)
}

/// The least typing of a body: what is known before each instruction where control can come from the
/// body's start (ECMA-335 III.1.8.1.1 to III.1.8.1.3), by its instructions' rows and edges.
///
/// Instructions are looked at as long as they wait: one waits once what is known before it has changed.
pub(crate) fn solve(
    alloc: Global,
    w: &mut World,
    rows: &Items<Row>,
    goings: &Goings,
    stated: &Stated,
    steps: &mut Steps,
) -> Result<Items<State>, NoMemory>
    ghost at: { Setup }
    requires setup { IsSetUp (hierarchy w.old) at }
    requires rows { AreRows w.old.nodes rows.now at.frame }
    requires goings { AreAllWays w.old.nodes stated.now at.frame goings.now }
    requires stated { AreStated w.old.nodes stated.now }
    requires count { length at.frame.code < 2 ^ 32 }
    requires room { steps.old + step_budget at goings.now ≤ 2 ^ 127 }
    ensures ok { IfOk result (λ states. IsSolved at.frame w.new.nodes states) }
    ensures stays { Stays w.old w.new }
    ensures steps { steps.new ≤ steps.old + step_budget at goings.now }
    ensures shallow { (d : ℕ) (cost : ℕ → ℕ) → IsDepth at.frame d → IsCost at.frame d goings.now cost → IfOk result (λ _. steps.new ≤ steps.old + (2 + d * at.top) * total cost (length at.frame.code)) }
{
    let mut states = first_states(alloc, rows.len())?;
    let mut list = Worklist::new(alloc, rows.len() as u32)?;
    list.push(0);
    while let Some(k) = list.pop() {
        keys_keep_their_types();
        let row = rows.at(k as usize);
        let from = goings.at(k as usize).as_slice();
        follow(
            alloc,
            w,
            &mut states,
            &mut list,
            k,
            row,
            from,
            stated,
            steps,
        )?;
    }
    Ok(states)
}

/// The least typing of a body by its instructions' rows and edges, with the bound on the joins that it
/// takes: for each pair of instructions with an edge, one for each value and for each time that what is
/// known before an instruction can change. Where stacks are no deeper than `d`, and what an instruction leaves
/// goes apart from what its edges state, it takes no more values than `d`.
pub(crate) fn least_typing(
    alloc: Global,
    w: &mut World,
    rows: &Items<Row>,
    goings: &Goings,
    stated: &Stated,
    steps: &mut Steps,
) -> Result<Items<State>, NoMemory>
    ghost at: { Setup }
    requires setup { IsSetUp (hierarchy w.old) at }
    requires rows { AreRows w.old.nodes rows.now at.frame }
    requires goings { IsGoings at.frame goings.now }
    requires stated { AreStatedFor w.old.nodes stated.now at.frame }
    requires count { length at.frame.code < 2 ^ 32 }
    requires room { steps.old + step_budget at goings.now ≤ 2 ^ 127 }
    ensures ok { IfOk result (λ states. IsSolved at.frame w.new.nodes states) }
    ensures stays { Stays w.old w.new }
    ensures budget { steps.new ≤ steps.old + step_budget at goings.now }
    ensures bound { (pairs : List (ℕ × ℕ)) → AreEdges at.frame pairs → steps.new ≤ steps.old + step_bound (length pairs) (length at.frame.code + 1) at.top }
    ensures shallow { (d : ℕ) (pairs : List (ℕ × ℕ)) → IsDepth at.frame d → FlowsApart at.frame → AreEdges at.frame pairs → IfOk result (λ _. steps.new ≤ steps.old + step_bound (length pairs) d at.top) }
{
    solve(alloc, w, rows, goings, stated, steps)
}

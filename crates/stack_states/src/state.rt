//! What is known before each instruction, and what is known where two ways meet.
ghost use Rattle.std.specs.Prelude.{◌≡◌, ◌+◌, ◌≤◌, ◌^◌, length, min, IfOk};
ghost use Rattle.type_hierarchy.specs.World.{hierarchy, Stays};
ghost use Rattle.stack_rows.specs.RowMeanings.{stack_meant, IsStackWithin, MeansStack};
ghost use Rattle.stack_states.specs.StateMeanings.{AllJoinAs, is_unreached, IsStateWithin, state_depth, MeetsAs};

use crate::alike::{same_count, same_stack};
use crate::stack::Stack;
use il_base::Steps;
use il_lists::{Items, NoMemory};
use sig_pool::SigPool;
use std::alloc::Global;
use type_order::types::World;
use type_order::{StackType, join, keys_keep_their_types};

/// What is known before an instruction (ECMA-335 III.1.8.1.1).
#[derive(Drop)]
pub enum State {
    /// That no way leads to it.
    Unreached,
    /// The types of the values on the stack.
    Stack(Stack),
    /// That stacks of different depth meet.
    Clash,
}

impl State {
    /// Whether no way leads to the instruction. Takes no memory.
    pub fn is_unreached(&self) -> bool
        ensures { result ≡ is_unreached self.now }
    {
        matches!(self, State::Unreached)
    }
}

/// The joins of two stacks of one depth, value by value.
fn joins(
    alloc: Global,
    w: &mut World,
    s: &[StackType],
    t: &[StackType],
    steps: &mut Steps,
) -> Result<Items<StackType>, NoMemory>
    requires s { IsStackWithin (length w.old.nodes) s.now }
    requires t { IsStackWithin (length w.old.nodes) t.now }
    requires depth { length s.now ≡ length t.now }
    requires room { steps.old + length s.now ≤ 2 ^ 127 }
    ensures ok { IfOk result (λ j. AllJoinAs (hierarchy w.old) w.old.nodes s.now t.now w.new.nodes j) }
    ensures stays { Stays w.old w.new }
    ensures steps { steps.new ≤ steps.old + length s.now }
{
    let mut joins = Items::with_capacity(alloc, s.len())?;
    for k in 0..s.len() {
        keys_keep_their_types();
        let both = join(w, &s[k], &t[k], steps)?;
        joins.push(both)?;
    }
    Ok(joins)
}

/// A stack that means the same as some values. It shares those that are the same, up to the first that isn't, with a stack
/// of their depth that has the values `known`.
fn over(
    alloc: Global,
    pool: &SigPool,
    stack: &Stack,
    known: &[StackType],
    values: &[StackType],
) -> Result<Stack, NoMemory>
    requires known { known.now ≡ stack.now }
    requires stack { IsStackWithin (length pool.now) stack.now }
    requires values { IsStackWithin (length pool.now) values.now }
    requires depth { length stack.now ≡ length values.now }
    ensures { IfOk result (λ s. MeansStack pool.now s (stack_meant pool.now values.now)) }
{
    let same = same_count(pool, known, values);
    let mut over = stack.under(values.len() - same)?;
    over.push_each(alloc, &values[same..])?;
    Ok(over)
}

/// What is known where two stacks of one depth meet, by their values, if that isn't the first. The second is `stack`.
fn values_meet(
    alloc: Global,
    w: &mut World,
    stack: &Stack,
    s: &[StackType],
    t: &[StackType],
    steps: &mut Steps,
) -> Result<Option<State>, NoMemory>
    requires known { t.now ≡ stack.now }
    requires s { IsStackWithin (length w.old.nodes) s.now }
    requires t { IsStackWithin (length w.old.nodes) stack.now }
    requires depth { length s.now ≡ length stack.now }
    requires room { steps.old + length s.now ≤ 2 ^ 127 }
    ensures ok { IfOk result (λ r. MeetsAs (hierarchy w.old) w.old.nodes (State.Stack s.now) (State.Stack stack.now) w.new.nodes r) }
    ensures stays { Stays w.old w.new }
    ensures steps { steps.new ≤ steps.old + length s.now }
{
    if same_stack(w.pool(), s, t) {
        return Ok(None);
    }
    let joins = joins(alloc, w, s, t, steps)?;
    let joins = joins.as_slice();
    keys_keep_their_types();
    if same_stack(w.pool(), s, joins) {
        return Ok(None);
    }
    let met = over(alloc, w.pool(), stack, t, joins)?;
    Ok(Some(State::Stack(met)))
}

/// What is known where two stacks meet, if that isn't the first.
fn stacks_meet(
    alloc: Global,
    w: &mut World,
    s: &Stack,
    t: &Stack,
    steps: &mut Steps,
) -> Result<Option<State>, NoMemory>
    requires s { IsStackWithin (length w.old.nodes) s.now }
    requires t { IsStackWithin (length w.old.nodes) t.now }
    requires room { steps.old + min (length s.now) (length t.now) ≤ 2 ^ 127 }
    ensures ok { IfOk result (λ r. MeetsAs (hierarchy w.old) w.old.nodes (State.Stack s.now) (State.Stack t.now) w.new.nodes r) }
    ensures stays { Stays w.old w.new }
    ensures steps { steps.new ≤ steps.old + min (length s.now) (length t.now) }
{
    if s.len() != t.len() {
        return Ok(Some(State::Clash));
    }
    let left = s.values(alloc)?;
    let right = t.values(alloc)?;
    values_meet(alloc, w, t, left.as_slice(), right.as_slice(), steps)
}

/// What is known where two ways meet, if that isn't what is known by the first.
pub fn meet(
    alloc: Global,
    w: &mut World,
    known: &State,
    comes: &State,
    steps: &mut Steps,
) -> Result<Option<State>, NoMemory>
    requires known { IsStateWithin (length w.old.nodes) known.now }
    requires comes { IsStateWithin (length w.old.nodes) comes.now }
    requires room { steps.old + min (state_depth known.now) (state_depth comes.now) ≤ 2 ^ 127 }
    ensures ok { IfOk result (λ r. MeetsAs (hierarchy w.old) w.old.nodes known.now comes.now w.new.nodes r) }
    ensures stays { Stays w.old w.new }
    ensures steps { steps.new ≤ steps.old + min (state_depth known.now) (state_depth comes.now) }
{
    match known {
        State::Clash => Ok(None),
        State::Unreached => match comes {
            State::Unreached => Ok(None),
            State::Clash => Ok(Some(State::Clash)),
            State::Stack(stack) => {
                let copy = stack.share()?;
                Ok(Some(State::Stack(copy)))
            }
        },
        State::Stack(stack) => match comes {
            State::Unreached => Ok(None),
            State::Clash => Ok(Some(State::Clash)),
            State::Stack(other) => stacks_meet(alloc, w, stack, other, steps),
        },
    }
}

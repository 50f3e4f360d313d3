ghost use Rattle.std.specs.Prelude.{◌≡◌, ◌<◌, ◌^◌, ◌++◌, List, map, length, IfOk, OnOk};
ghost use Rattle.code_flow.specs.Blocks.{ClausesNest};
ghost use Rattle.code_flow.specs.BlockTests.{spans_of};
ghost use Rattle.code_flow.specs.Frames.{Frame};
ghost use Rattle.code_flow.specs.Goings.{IsGoings};
ghost use Rattle.code_flow.specs.Laws.{IsFormed};
ghost use Rattle.code_flow.specs.Edges.{targets};
ghost use Rattle.code_flow.specs.Operations.{operation};
ghost use Rattle.code_flow.specs.GoingTests.{AddsSame, own_goings, guards_from, HasGoings, HaveGoings};
ghost use Rattle.code_flow.specs.Leaving.{HaveExits};
ghost use Rattle.code_flow.specs.declared.leaving.Leave.{Leave as TheLeave};

use crate::clauses::Clauses;
use crate::flowing::add_flowing;
use crate::guarding::{bounds_of, guards_at};
use crate::leaving::{Exits, add_ended, add_left, exits_of, leaves_of, targets_of};
use crate::operation::{Operation, operation_of};
use assembly_tree::Ins;
use il_lists::{Items, NoMemory};
use std::alloc::Global;

/// What comes along an edge of a body (ECMA-335 III.1.7.5, I.12.4.2.8).
#[derive(Clone, Copy, Drop)]
pub enum Carried {
    /// What the instruction leaves on the stack.
    Flowing,
    /// An empty stack.
    Nothing,
    /// An object of any type.
    Object,
    /// An object that the clause at that place catches.
    Caught(u32),
}

/// An edge from an instruction: the instruction to which it leads, and what comes along.
#[derive(Clone, Copy, Drop)]
pub struct Going {
    pub to: u32,
    pub carries: Carried,
}

/// The edges of a body: those from each instruction.
pub type Goings = Items<Items<Going>>;

/// Adds the edges that instruction `k` itself states.
fn add_own(
    goings: &mut Items<Going>,
    clauses: &Clauses,
    exits: &Exits,
    k: u32,
    ins: &Ins,
) -> Result<(), NoMemory>
    ensures { (leaves : List TheLeave) → HaveExits clauses.now leaves exits.now → OnOk result (AddsSame goings.old goings.new (own_goings clauses.now leaves k (targets ins.now.operand) (operation ins.now.op))) }
{
    match operation_of(ins.op) {
        Operation::Leave => add_left(goings, clauses, k, targets_of(&ins.operand)),
        Operation::EndFinally => add_ended(goings, clauses, exits, k),
        _ => Ok(()),
    }
}

/// The edges from instruction `k` of `count`, of which `guards` lead to handlers and filters.
fn goings_at(
    alloc: Global,
    count: u32,
    clauses: &Clauses,
    exits: &Exits,
    guards: &[Going],
    k: u32,
    ins: &Ins,
) -> Result<Items<Going>, NoMemory>
    requires below { k < count }
    requires guards { guards.now ≡ guards_from k 0 clauses.now }
    ensures { (leaves : List TheLeave) → HaveExits clauses.now leaves exits.now → IfOk result (HasGoings count clauses.now leaves k ins.now) }
{
    let mut goings = Items::new(alloc);
    add_flowing(alloc, &mut goings, count, k, ins)?;
    add_own(&mut goings, clauses, exits, k, ins)?;
    goings.extend(guards)?;
    Ok(goings)
}

/// The edges from each instruction, found by the blocks of the clauses.
fn all_goings(alloc: Global, code: &[Ins], clauses: &Clauses) -> Result<Goings, NoMemory>
    requires code { length code.now < 2 ^ 32 }
    requires few { length clauses.now < 2 ^ 32 }
    ensures { IfOk result (HaveGoings code.now clauses.now) }
{
    let leaves = leaves_of(alloc, code)?;
    let exits = exits_of(alloc, clauses, &leaves)?;
    let bounds = bounds_of(alloc, code.len(), clauses.as_slice())?;
    let bounds = bounds.as_slice();
    let mut all = Items::with_capacity(alloc, code.len())?;
    let mut guards = Items::new(alloc);
    let count = code.len() as u32;
    for k in 0..count {
        guards = guards_at(alloc, clauses, bounds, k, guards)?;
        let goings = goings_at(
            alloc,
            count,
            clauses,
            &exits,
            guards.as_slice(),
            k,
            &code[k as usize],
        )?;
        all.push(goings)?;
    }
    Ok(all)
}

/// The edges of a body whose clauses nest (ECMA-335 III.1.7, I.12.4.2.8): for each instruction those to
/// instructions. Of those that lead to one at most one brings what the instruction leaves, and at most one an
/// object.
pub fn goings_of(alloc: Global, code: &[Ins], clauses: &Clauses) -> Result<Goings, NoMemory>
    requires code { length code.now < 2 ^ 32 }
    requires few { length clauses.now < 2 ^ 32 }
    ensures { IfOk result (λ goings. (f : Frame) → f.code ≡ code.now → clauses.now ≡ map spans_of f.clauses → IsFormed f → ClausesNest f.clauses → IsGoings f goings) }
{
    let goings = all_goings(alloc, code, clauses)?;
    Ok(goings)
}

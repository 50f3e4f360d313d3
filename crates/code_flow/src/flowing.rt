ghost use Rattle.std.specs.Prelude.{◌≡◌, ◌<◌, ◌^◌, ◌++◌, ◌↔◌, ℕ, map, length, IfOk, OnOk};
ghost use Rattle.std.specs.List.{Contains, AllPairs};
ghost use Rattle.code_flow.specs.Edges.{falls, branches, targets};
ghost use Rattle.code_flow.specs.GoingTests.{going, branched, fallen, flow_targets, AddsFlows, AreFlows};
ghost use Rattle.code_flow.specs.declared.goings.Carried.TheVariants as carries;

use crate::goings::{Carried, Going};
use crate::leaving::targets_of;
use crate::operation::{Operation, operation_of};
use assembly_tree::Ins;
use il_lists::{Items, NoMemory};
use std::alloc::Global;

impl Operation {
    /// Whether control goes on to the next instruction.
    pub fn falls(self) -> bool
        ensures { result ≡ falls self }
    {
        match self {
            Operation::Branch
            | Operation::Leave
            | Operation::Return
            | Operation::Throw
            | Operation::Rethrow
            | Operation::EndFinally
            | Operation::EndFilter
            | Operation::Unlisted => false,
            _ => true,
        }
    }

    /// Whether it is a branch or a switch, but for `leave`.
    pub fn branches(self) -> bool
        ensures { result ≡ branches self }
    {
        match self {
            Operation::Branch
            | Operation::BranchIf
            | Operation::BranchEqual
            | Operation::BranchOrder
            | Operation::Switch => true,
            _ => false,
        }
    }
}

/// The targets of a branch or a switch.
fn branched(alloc: Global, does: Operation, ins: &Ins) -> Result<Vec<u32>, NoMemory>
    ensures { IfOk result (λ ts. ts.items ≡ branched (branches does) (targets ins.now.operand)) }
{
    if does.branches() {
        Ok(Vec::from_slice(alloc, targets_of(&ins.operand))?)
    } else {
        Ok(Vec::new(alloc))
    }
}

/// Adds the next of `count` instructions, where control falls to it.
fn add_fallen(all: &mut Vec<u32>, count: u32, k: u32, falls: bool) -> Result<(), NoMemory>
    requires { k < count }
    ensures { OnOk result (all.new.items ≡ all.old.items ++ fallen count k falls) }
{
    if falls && k + 1 < count {
        all.push(k + 1)?;
    }
    Ok(())
}

/// The places to which what instruction `k` of `count` leaves on the stack goes.
fn flow_targets(alloc: Global, count: u32, k: u32, ins: &Ins) -> Result<Vec<u32>, NoMemory>
    requires { k < count }
    ensures { IfOk result (λ ts. ts.items ≡ flow_targets count k ins.now) }
{
    let does = operation_of(ins.op);
    let mut all = branched(alloc, does, ins)?;
    add_fallen(&mut all, count, k, does.falls())?;
    Ok(all)
}

/// The same numbers, each once.
pub fn each_once(numbers: Vec<u32>) -> Vec<u32>
    ensures same { (t : ℕ) → Contains result.items t ↔ Contains numbers.items t }
    ensures once { AllPairs (λ (s t : ℕ). s ≡ t → ⊥) result.items }
{
    let mut numbers = numbers;
    numbers.sort_unstable();
    numbers.dedup();
    numbers
}

/// Where what instruction `k` of `count` leaves on the stack goes, each place once.
fn flows(alloc: Global, count: u32, k: u32, ins: &Ins) -> Result<Vec<u32>, NoMemory>
    requires { k < count }
    ensures { IfOk result (λ ts. AreFlows count k ins.now ts.items) }
{
    let all = flow_targets(alloc, count, k, ins)?;
    Ok(each_once(all))
}

fn add_flows(goings: &mut Items<Going>, flows: &[u32]) -> Result<(), NoMemory>
    ensures { OnOk result (goings.new ≡ goings.old ++ map (going carries.Flowing) flows.now) }
{
    for to in flows {
        goings.push(Going {
            to: *to,
            carries: Carried::Flowing,
        })?;
    }
    Ok(())
}

/// Adds the edge to the next of `count` instructions, where control falls to it.
fn add_next(goings: &mut Items<Going>, count: u32, k: u32, falls: bool) -> Result<(), NoMemory>
    requires { k < count }
    ensures { OnOk result (goings.new ≡ goings.old ++ map (going carries.Flowing) (fallen count k falls)) }
{
    if falls && k + 1 < count {
        goings.push(Going {
            to: k + 1,
            carries: Carried::Flowing,
        })?;
    }
    Ok(())
}

/// Adds the edges along which what instruction `k` of `count` leaves on the stack goes.
pub fn add_flowing(
    alloc: Global,
    goings: &mut Items<Going>,
    count: u32,
    k: u32,
    ins: &Ins,
) -> Result<(), NoMemory>
    requires { k < count }
    ensures { OnOk result (AddsFlows count k ins.now goings.old goings.new) }
{
    let does = operation_of(ins.op);
    if !does.branches() {
        return add_next(goings, count, k, does.falls());
    }
    let flows = flows(alloc, count, k, ins)?;
    add_flows(goings, flows.as_slice())
}

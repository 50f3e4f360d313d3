//! Whether a stack meets what an instruction asks of it (ECMA-335 III.1.5, III.1.7.4, III.1.8.1.2). What asks operands
//! alone is given a stack's values, or the topmost of them.
ghost use Rattle.std.specs.Prelude.{◌≡◌, ◌↔◌, ◌<◌, ◌≤◌, List, length, IsTrue, IfOk};
ghost use Rattle.sig_pool.specs.declared.node.Node.{Node};
ghost use Rattle.type_hierarchy.specs.Hierarchy.{Hierarchy};
ghost use Rattle.type_hierarchy.specs.Stack as stack;
ghost use Rattle.type_hierarchy.specs.World.{hierarchy, Stays};
ghost use Rattle.stack_states.specs.Asking.{IsWrongAt, HasWrongOperand, IsUnassignableAt, HasUnassignable, IsUnstored, FailsToFit, IsMismatched};
ghost use Rattle.code_flow.specs.Effects.{effect};
ghost use Rattle.stack_rows.specs.RowMeanings.{row_meant, stack_meant, IsRowWithin, IsStackWithin};

use crate::meeting::{fails_to_assign, is_unassignable, is_wrong, referent};
use crate::operands::operand;
use crate::pairs::clash;
use crate::stack::Stack;
use il_lists::NoMemory;
use stack_rows::row::{Row, Together};
use type_order::StackType;
use type_order::types::World;

/// Whether there are too few operands. Takes no memory.
pub fn has_too_few(row: &Row, stack: &Stack) -> bool
    ensures { (ns : List Node) → IsTrue result ↔ (length (stack_meant ns stack.now) < length (row_meant ns row.now).operands) }
{
    stack.len() < row.operands.len()
}

/// Whether there is more than the operands. Takes no memory.
pub fn has_more(row: &Row, stack: &Stack) -> bool
    ensures { (ns : List Node) → IsTrue result ↔ (length (row_meant ns row.now).operands < length (stack_meant ns stack.now)) }
{
    row.operands.len() < stack.len()
}

/// Whether the stack afterwards is deeper than a bound. Takes no memory.
pub fn gets_too_deep(row: &Row, stack: &Stack, bound: u16) -> bool
    ensures { (ns : List Node) → IsTrue result ↔ (bound < length (effect (row_meant ns row.now) (stack_meant ns stack.now))) }
{
    if row.empties {
        return false;
    }
    let left = stack.len().saturating_sub(row.operands.len());
    let bound = bound as usize;
    bound < left || bound - left < row.pushed.len()
}

/// Whether the operand at place `k` is of a wrong kind.
fn is_wrong_at(w: &mut World, row: &Row, stack: &[StackType], k: usize) -> Result<bool, NoMemory>
    requires row { IsRowWithin (length w.old.nodes) row.now }
    requires stack { IsStackWithin (length w.old.nodes) stack.now }
    requires place { k < length row.now.operands }
    ensures ok { IfOk result (λ r. IsTrue r ↔ IsWrongAt k (hierarchy w.old) (row_meant w.old.nodes row.now) (stack_meant w.old.nodes stack.now)) }
    ensures stays { Stays w.old w.new }
{
    let demand = *row.operands.at(k);
    let value = operand(stack, row.operands.len(), k);
    let wrong = is_wrong(w, demand, &value)?;
    Ok(wrong)
}

/// Whether an operand is of a wrong kind.
pub fn has_wrong_operand(w: &mut World, row: &Row, stack: &[StackType]) -> Result<bool, NoMemory>
    requires row { IsRowWithin (length w.old.nodes) row.now }
    requires stack { IsStackWithin (length w.old.nodes) stack.now }
    ensures ok { IfOk result (λ r. IsTrue r ↔ HasWrongOperand (hierarchy w.old) (row_meant w.old.nodes row.now) (stack_meant w.old.nodes stack.now)) }
    ensures stays { Stays w.old w.new }
{
    for k in 0..row.operands.len() {
        let wrong = is_wrong_at(w, row, stack, k)?;
        if wrong {
            return Ok(true);
        }
    }
    Ok(false)
}

/// Whether the operand at place `k` isn't assignable to what is demanded.
fn is_unassignable_at(
    w: &mut World,
    row: &Row,
    stack: &[StackType],
    k: usize,
) -> Result<bool, NoMemory>
    requires row { IsRowWithin (length w.old.nodes) row.now }
    requires stack { IsStackWithin (length w.old.nodes) stack.now }
    requires place { k < length row.now.operands }
    ensures ok { IfOk result (λ r. IsTrue r ↔ IsUnassignableAt k (hierarchy w.old) (row_meant w.old.nodes row.now) (stack_meant w.old.nodes stack.now)) }
    ensures stays { Stays w.old w.new }
{
    let demand = *row.operands.at(k);
    let value = operand(stack, row.operands.len(), k);
    let fails = fails_to_assign(w, demand, &value)?;
    Ok(fails)
}

/// Whether an operand isn't assignable to what is demanded.
fn has_unassignable(w: &mut World, row: &Row, stack: &[StackType]) -> Result<bool, NoMemory>
    requires row { IsRowWithin (length w.old.nodes) row.now }
    requires stack { IsStackWithin (length w.old.nodes) stack.now }
    ensures ok { IfOk result (λ r. IsTrue r ↔ HasUnassignable (hierarchy w.old) (row_meant w.old.nodes row.now) (stack_meant w.old.nodes stack.now)) }
    ensures stays { Stays w.old w.new }
{
    for k in 0..row.operands.len() {
        let fails = is_unassignable_at(w, row, stack, k)?;
        if fails {
            return Ok(true);
        }
    }
    Ok(false)
}

/// Whether the second operand isn't assignable to what the first points to.
fn is_unstored(w: &mut World, row: &Row, stack: &[StackType]) -> Result<bool, NoMemory>
    requires row { IsRowWithin (length w.old.nodes) row.now }
    requires stack { IsStackWithin (length w.old.nodes) stack.now }
    ensures ok { IfOk result (λ r. IsTrue r ↔ IsUnstored (hierarchy w.old) (row_meant w.old.nodes row.now) (stack_meant w.old.nodes stack.now)) }
    ensures stays { Stays w.old w.new }
{
    match row.together {
        Together::Stored => {
            let count = row.operands.len();
            let pointer = operand(stack, count, 0);
            let value = operand(stack, count, 1);
            match referent(w.pool(), &pointer) {
                Some(key) => {
                    let fails = is_unassignable(w, &value, &StackType::Ref(key))?;
                    Ok(fails)
                }
                None => Ok(false),
            }
        }
        Together::Apart => Ok(false),
        Together::Paired(_) => Ok(false),
    }
}

/// Whether an operand isn't assignable to what is demanded, or the second to what the first points to.
pub fn fails_to_fit(w: &mut World, row: &Row, stack: &[StackType]) -> Result<bool, NoMemory>
    requires row { IsRowWithin (length w.old.nodes) row.now }
    requires stack { IsStackWithin (length w.old.nodes) stack.now }
    ensures ok { IfOk result (λ r. IsTrue r ↔ FailsToFit (hierarchy w.old) (row_meant w.old.nodes row.now) (stack_meant w.old.nodes stack.now)) }
    ensures stays { Stays w.old w.new }
{
    let stored = is_unstored(w, row, stack)?;
    if stored {
        return Ok(true);
    }
    let fails = has_unassignable(w, row, stack)?;
    Ok(fails)
}

/// Whether the operands, each fit to be one of a pair, don't go together. Takes no memory.
pub fn is_mismatched(row: &Row, stack: &[StackType]) -> bool
    ensures { (w : Hierarchy) (ns : List Node) → IsTrue result ↔ IsMismatched w (row_meant ns row.now) (stack_meant ns stack.now) }
{
    match row.together {
        Together::Paired(pairing) => {
            let count = row.operands.len();
            let left = operand(stack, count, 0);
            let right = operand(stack, count, 1);
            clash(pairing, &left, &right)
        }
        Together::Apart => false,
        Together::Stored => false,
    }
}

//! The stack after an instruction (ECMA-335 III.1.5).
ghost use Rattle.std.specs.Prelude.{◌≡◌, ◌<◌, ◌-◌, ◌++◌, ℕ, List, length, map, take, IfOk, OnOk};
ghost use Rattle.std.specs.List.{All};
ghost use Rattle.sig_pool.specs.declared.node.Node.{Node};
ghost use Rattle.type_hierarchy.specs.Meaning.{meant, IsWithin, Means};
ghost use Rattle.type_hierarchy.specs.World.{Stays};
ghost use Rattle.code_flow.specs.Demands.{object_element, referent};
ghost use Rattle.code_flow.specs.Effects.{effect};
ghost use Rattle.stack_rows.specs.RowMeanings.{given_by, pushed_meant, IsPushedWithin, row_meant, IsRowWithin, stack_meant, IsStackWithin, MeansStack};
ghost use Rattle.code_flow.specs.Rows.{kept_if, reference_to, fetched_from};

use crate::meeting::{object_element, referent};
use crate::operands::operand;
use crate::pairs::outcome;
use crate::stack::Stack;
use il_lists::NoMemory;
use stack_rows::kinds::{is_integer, is_null, is_number};
use stack_rows::row::{Pushed, Row};
use std::alloc::Global;
use type_order::StackType;
use type_order::types::World;

/// An element of a vector of a reference type, and null of null.
fn fetched(w: &mut World, s: &StackType) -> Result<StackType, NoMemory>
    requires { IsWithin (length w.old.nodes) s.now }
    ensures ok { IfOk result (λ r. Means w.new.nodes r (fetched_from (meant w.old.nodes s.now) (object_element (meant w.old.nodes s.now)))) }
    ensures stays { Stays w.old w.new }
{
    match object_element(w, s)? {
        Some(key) => Ok(StackType::Ref(key)),
        None => {
            if is_null(s) {
                Ok(StackType::Null)
            } else {
                Ok(StackType::Bad)
            }
        }
    }
}

/// What a reference type is pointed to by; Bad for anything else. Takes no memory.
fn pointed(w: &World, s: &StackType) -> StackType
    requires { IsWithin (length w.now.nodes) s.now }
    ensures { Means w.now.nodes result (reference_to (referent (meant w.now.nodes s.now))) }
{
    match referent(w.pool(), s) {
        Some(key) => StackType::Ref(key),
        None => StackType::Bad,
    }
}

/// What is pushed, by the first two operands (ECMA-335 III.1.5).
fn given(
    w: &mut World,
    pushed: Pushed,
    first: &StackType,
    second: &StackType,
) -> Result<StackType, NoMemory>
    requires pushed { IsPushedWithin (length w.old.nodes) pushed }
    requires first { IsWithin (length w.old.nodes) first.now }
    requires second { IsWithin (length w.old.nodes) second.now }
    ensures ok { IfOk result (λ s. Means w.new.nodes s (given_by (meant w.old.nodes first.now) (meant w.old.nodes second.now) (pushed_meant w.old.nodes pushed))) }
    ensures stays { Stays w.old w.new }
{
    match pushed {
        Pushed::Always(value) => Ok(value),
        Pushed::Same => Ok(*first),
        Pushed::SameNumber => Ok(kept_if(is_number(first), first)),
        Pushed::SameInteger => Ok(kept_if(is_integer(first), first)),
        Pushed::Pointed => Ok(pointed(w, first)),
        Pushed::Fetched => fetched(w, first),
        Pushed::Computed(pairing) => Ok(outcome(pairing, first, second)),
    }
}

fn kept_if(kept: bool, s: &StackType) -> StackType
    ensures is { (ns : List Node) → meant ns result ≡ kept_if kept (meant ns s.now) }
    ensures within { (n : ℕ) → IsWithin n s.now → IsWithin n result }
{
    if kept { *s } else { StackType::Bad }
}

/// Pushes what a row pushes.
fn push_all(
    alloc: Global,
    w: &mut World,
    stack: &mut Stack,
    pushed: &[Pushed],
    first: &StackType,
    second: &StackType,
) -> Result<(), NoMemory>
    requires stack { IsStackWithin (length w.old.nodes) stack.old }
    requires pushed { All (IsPushedWithin (length w.old.nodes)) pushed.now }
    requires first { IsWithin (length w.old.nodes) first.now }
    requires second { IsWithin (length w.old.nodes) second.now }
    ensures ok { OnOk result (MeansStack w.new.nodes stack.new (stack_meant w.old.nodes stack.old ++ map (given_by (meant w.old.nodes first.now) (meant w.old.nodes second.now)) (map (pushed_meant w.old.nodes) pushed.now))) }
    ensures stays { Stays w.old w.new }
{
    for value in pushed {
        let value = given(w, *value, first, second)?;
        stack.push(alloc, value)?;
    }
    Ok(())
}

/// The stack after an instruction with that row.
pub fn stack_after(
    alloc: Global,
    w: &mut World,
    row: &Row,
    stack: &Stack,
) -> Result<Stack, NoMemory>
    requires row { IsRowWithin (length w.old.nodes) row.now }
    requires stack { IsStackWithin (length w.old.nodes) stack.now }
    ensures ok { IfOk result (λ s. MeansStack w.new.nodes s (effect (row_meant w.old.nodes row.now) (stack_meant w.old.nodes stack.now))) }
    ensures stays { Stays w.old w.new }
{
    if row.empties {
        return Ok(Stack::new());
    }
    let count = row.operands.len();
    let operands = stack.topmost(alloc, count)?;
    let operands = operands.as_slice();
    let first = operand(operands, count, 0);
    let second = operand(operands, count, 1);
    let mut after = stack.under(count)?;
    let pushed = row.pushed.as_slice();
    push_all(alloc, w, &mut after, pushed, &first, &second)?;
    Ok(after)
}

//! The first rule that a reached instruction breaks.
ghost use Rattle.std.specs.Prelude.{◌≡◌, ◌↔◌, ◌⊎◌, ◌<◌, ◌≤◌, ◌&&◌, ◌||◌, ℕ, List, [], length, slice_get, Some, IsTrue, IfOk};
ghost use Rattle.assembly_tree.specs.declared.body.Ins.{Ins};
ghost use Rattle.sig_pool.specs.declared.node.Node.{Node};
ghost use Rattle.type_hierarchy.specs.World.{hierarchy, Stays};
ghost use Rattle.code_flow.specs.Effects.{effect};
ghost use Rattle.code_flow.specs.Frames.{Frame};
ghost use Rattle.code_flow.specs.Operations.{operation};
ghost use Rattle.code_flow.specs.Rows.{row_of};
ghost use Rattle.stack_rows.specs.RowMeanings.{row_meant, stack_meant, IsRowWithin, IsStackWithin};
ghost use Rattle.code_flow.specs.Typings as typings;
ghost use Rattle.body_verifier.specs.Verdicts.{AreStackBreaks, AreCodeBreaks, is_return, is_filter_end, tests_of, IsFirst, Judges};

use code_flow::operation::Operation;
use il_lists::NoMemory;
use stack_rows::row::Row;
use stack_states::asking::{
    fails_to_fit, gets_too_deep, has_more, has_too_few, has_wrong_operand, is_mismatched,
};
use stack_states::stack::Stack;
use std::alloc::Global;
use type_order::keys_keep_their_types;
use type_order::types::World;

/// What an instruction breaks that asks its stack.
#[derive(Clone, Copy, Drop)]
pub(crate) struct StackBreaks {
    /// V1
    pub too_few: bool,
    /// V3
    pub too_deep: bool,
    /// V4
    pub wrong: bool,
    /// V5
    pub unfit: bool,
    /// V7
    pub mismatched: bool,
    /// Whether there is more on the stack than the operands (V11, V15).
    pub more: bool,
    /// Whether there is something on the stack (V14).
    pub full: bool,
}

/// What an instruction breaks whatever the stack is.
#[derive(Clone, Copy, Drop)]
pub(crate) struct CodeBreaks {
    /// V6
    pub runs_off: bool,
    /// V8
    pub lacks_local: bool,
    /// V9
    pub lacks_argument: bool,
    /// V10
    pub misfits: bool,
    /// V11
    pub returns_inside: bool,
    /// V12
    pub branches_across: bool,
    /// V13
    pub falls_across: bool,
    /// Whether a try begins there (V14).
    pub enters_try: bool,
    /// V15
    pub misplaced: bool,
    /// V17
    pub unfit_prefix: bool,
    /// V18
    pub unverified: bool,
    /// V19
    pub points_to_reference: bool,
}

fn returns(does: Operation) -> bool
    ensures { result ≡ is_return does }
{
    matches!(does, Operation::Return)
}

fn ends_filter(does: Operation) -> bool
    ensures { result ≡ is_filter_end does }
{
    matches!(does, Operation::EndFilter)
}

fn both(a: bool, b: bool) -> bool
    ensures { result ≡ (a && b) }
{
    a && b
}

fn either(a: bool, b: bool) -> bool
    ensures { result ≡ (a || b) }
{
    a || b
}

/// Whether the stack is deeper than a bound, before the instruction or afterwards.
fn is_too_deep(row: &Row, stack: &Stack, bound: u16) -> bool
    ensures { (ns : List Node) → IsTrue result ↔ ((bound < length (stack_meant ns stack.now)) ⊎ (bound < length (effect (row_meant ns row.now) (stack_meant ns stack.now)))) }
{
    (bound as usize) < stack.len() || gets_too_deep(row, stack, bound)
}

/// Whether there is something on the stack.
fn is_full(stack: &Stack) -> bool
    ensures { (ns : List Node) → IsTrue result ↔ (stack_meant ns stack.now ≡ [] → ⊥) }
{
    0 < stack.len()
}

/// What an instruction with that row breaks that asks its stack.
fn stack_breaks(
    alloc: Global,
    w: &mut World,
    row: &Row,
    bound: u16,
    stack: &Stack,
) -> Result<StackBreaks, NoMemory>
    requires row { IsRowWithin (length w.old.nodes) row.now }
    requires stack { IsStackWithin (length w.old.nodes) stack.now }
    ensures ok { IfOk result (λ b. AreStackBreaks (hierarchy w.old) bound (row_meant w.old.nodes row.now) (stack_meant w.old.nodes stack.now) b) }
    ensures stays { Stays w.old w.new }
{
    let too_few = has_too_few(row, stack);
    let too_deep = is_too_deep(row, stack, bound);
    let more = has_more(row, stack);
    let full = is_full(stack);
    let operands = stack.topmost(alloc, row.operands.len())?;
    let operands = operands.as_slice();
    let mismatched = is_mismatched(row, operands);
    keys_keep_their_types();
    let wrong = has_wrong_operand(w, row, operands)?;
    let unfit = fails_to_fit(w, row, operands)?;
    Ok(StackBreaks {
        too_few,
        too_deep,
        wrong,
        unfit,
        mismatched,
        more,
        full,
    })
}

/// The place of the first `true`, counted from 1. Takes no memory.
fn first_true(tests: &[bool]) -> Option<u8>
    requires { length tests.now ≤ 255 }
    ensures { IsFirst tests.now result }
{
    let mut number = 0;
    for test in tests {
        number += 1;
        if *test {
            return Some(number);
        }
    }
    None
}

/// The number of the first rule that is broken. Takes no memory.
fn first_rule(stack: &StackBreaks, code: &CodeBreaks, does: Operation) -> Option<u8>
    ensures { IsFirst (tests_of stack.now code.now does) result }
{
    let tests = [
        stack.too_few,
        false,
        stack.too_deep,
        stack.wrong,
        stack.unfit,
        code.runs_off,
        stack.mismatched,
        code.lacks_local,
        code.lacks_argument,
        code.misfits,
        either(both(returns(does), stack.more), code.returns_inside),
        code.branches_across,
        code.falls_across,
        both(code.enters_try, stack.full),
        either(code.misplaced, both(ends_filter(does), stack.more)),
        false,
        code.unfit_prefix,
        code.unverified,
        code.points_to_reference,
    ];
    first_true(&tests)
}

/// The number of the first rule that an instruction breaks before which that stack stands.
pub(crate) fn judge(
    alloc: Global,
    w: &mut World,
    row: &Row,
    does: Operation,
    bound: u16,
    stack: &Stack,
    code: &CodeBreaks,
) -> Result<Option<u8>, NoMemory>
    requires row { IsRowWithin (length w.old.nodes) row.now }
    requires stack { IsStackWithin (length w.old.nodes) stack.now }
    ensures ok { IfOk result (λ r. (f : Frame) (typing : typings.Typing) (k : ℕ) (i : Ins) → f.types ≡ hierarchy w.old → f.bound ≡ bound → slice_get f.code k ≡ Some i → operation i.op ≡ does → row_meant w.old.nodes row.now ≡ row_of f k i → typing k ≡ typings.stack (stack_meant w.old.nodes stack.now) → AreCodeBreaks f k code.now → Judges f typing k r) }
    ensures stays { Stays w.old w.new }
{
    let stack = stack_breaks(alloc, w, row, bound, stack)?;
    Ok(first_rule(&stack, code, does))
}

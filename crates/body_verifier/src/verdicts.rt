//! The first rule that an instruction breaks, by what is known before it.
ghost use Rattle.std.specs.Prelude.{◌≡◌, ◌<◌, ◌^◌, ℕ, length, slice_get, Some, IfOk};
ghost use Rattle.assembly_tree.specs.declared.body.Ins.{Ins};
ghost use Rattle.type_hierarchy.specs.Indexed.{KnowsTypes};
ghost use Rattle.type_hierarchy.specs.World.{hierarchy, Stays};
ghost use Rattle.body_verifier.specs.CodeMarks.{AreAsMany, IsBody};
ghost use Rattle.code_flow.specs.Frames.{Frame};
ghost use Rattle.stack_rows.specs.RowMeanings.{row_meant, IsRowWithin, IsFrameWithin};
ghost use Rattle.code_flow.specs.Rows.{row_of};
ghost use Rattle.stack_states.specs.StateMeanings.{state_meant, IsStateWithin};
ghost use Rattle.code_flow.specs.Typings.{Typing};
ghost use Rattle.body_verifier.specs.Verdicts.{Judges};

use crate::code_breaks::code_breaks;
use crate::code_marks::CodeMarks;
use crate::judging::judge;
use assembly_tree::{Assembly, Ins};
use code_flow::clauses::Clauses;
use code_flow::operation::operation_of;
use il_lists::NoMemory;
use stack_rows::frame::CodeFrame;
use stack_rows::row::Row;
use stack_states::state::State;
use std::alloc::Global;
use type_order::types::World;

/// The number of the first rule that instruction `k` of a body breaks, by its row and what is known before it; none where
/// it isn't reached.
pub(crate) fn verdict(
    alloc: Global,
    w: &mut World,
    a: &Assembly,
    frame: &CodeFrame,
    code: &[Ins],
    clauses: &Clauses,
    marks: &CodeMarks,
    bound: u16,
    k: u32,
    row: &Row,
    state: &State,
) -> Result<Option<u8>, NoMemory>
    requires few { length code.now < 2 ^ 32 }
    requires k { k < length code.now }
    requires many { AreAsMany code.now marks.now }
    requires frame { IsFrameWithin (length w.old.nodes) frame.now }
    requires known { KnowsTypes a.now w.old.tables }
    requires row { IsRowWithin (length w.old.nodes) row.now }
    requires state { IsStateWithin (length w.old.nodes) state.now }
    ensures ok { IfOk result (λ r. (f : Frame) (typing : Typing) (i : Ins) → IsBody f a.now w.old.nodes frame.now code.now clauses.now marks.now → f.types ≡ hierarchy w.old → f.bound ≡ bound → slice_get f.code k ≡ Some i → row_meant w.old.nodes row.now ≡ row_of f k i → typing k ≡ state_meant w.old.nodes state.now → Judges f typing k r) }
    ensures stays { Stays w.old w.new }
{
    match state {
        State::Unreached => Ok(None),
        State::Clash => Ok(Some(2)),
        State::Stack(stack) => {
            let breaks = code_breaks(w, a, frame, code, clauses, marks, k)?;
            let does = operation_of(code[k as usize].op);
            let rule = judge(alloc, w, row, does, bound, stack, &breaks)?;
            Ok(rule)
        }
    }
}

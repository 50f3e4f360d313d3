//! Which rules an instruction breaks whatever the stack is.
ghost use Rattle.std.specs.Prelude.{◌≡◌, ◌<◌, ◌^◌, length, IfOk};
ghost use Rattle.type_hierarchy.specs.Indexed.{KnowsTypes};
ghost use Rattle.type_hierarchy.specs.World.{hierarchy};
ghost use Rattle.body_verifier.specs.CodeMarks.{AreAsMany, IsBody};
ghost use Rattle.code_flow.specs.Frames.{Frame};
ghost use Rattle.stack_rows.specs.RowMeanings.{IsFrameWithin};
ghost use Rattle.body_verifier.specs.Verdicts.{AreCodeBreaks};

use crate::code_marks::CodeMarks;
use crate::judging::CodeBreaks;
use crate::naming_rules::{misfits, points_to_reference};
use assembly_tree::{Assembly, Ins};
use code_flow::clauses::Clauses;
use code_flow::code_rules::{
    branches_across, falls_across, is_misplaced, is_unverified, returns_inside, runs_off,
};
use code_flow::prefixes::is_stray;
use code_flow::variable_rules::{lacks_argument, lacks_local};
use il_lists::NoMemory;
use stack_effects::variables::variable_number;
use stack_rows::frame::CodeFrame;
use type_order::types::World;

/// What instruction `k` of a body breaks whatever the stack is.
///
/// The keys of the frame are ones that this world gave, which is one of the image.
pub(crate) fn code_breaks(
    w: &World,
    a: &Assembly,
    frame: &CodeFrame,
    code: &[Ins],
    clauses: &Clauses,
    marks: &CodeMarks,
    k: u32,
) -> Result<CodeBreaks, NoMemory>
    requires few { length code.now < 2 ^ 32 }
    requires k { k < length code.now }
    requires many { AreAsMany code.now marks.now }
    requires frame { IsFrameWithin (length w.now.nodes) frame.now }
    requires known { KnowsTypes a.now w.now.tables }
    ensures { (f : Frame) → IsBody f a.now w.now.nodes frame.now code.now clauses.now marks.now → f.types ≡ hierarchy w.now → IfOk result (AreCodeBreaks f k) }
{
    let ins = &code[k as usize];
    let unfit_member = misfits(w, a, ins)?;
    let count = code.len() as u32;
    let entered = marks.entered.as_slice();
    let past = *marks.pasts.at(k as usize);
    let number = variable_number(ins);
    Ok(CodeBreaks {
        runs_off: runs_off(count, k, ins),
        lacks_local: lacks_local(frame.locals.len(), number, ins),
        lacks_argument: lacks_argument(frame.arguments.len(), number, ins),
        misfits: unfit_member,
        returns_inside: returns_inside(clauses, k, ins),
        branches_across: branches_across(clauses, k, ins),
        falls_across: falls_across(clauses, entered, k, ins),
        enters_try: marks.tries[k as usize],
        misplaced: is_misplaced(clauses, k, ins),
        unfit_prefix: is_stray(code, entered, past, k, ins),
        unverified: is_unverified(ins),
        points_to_reference: points_to_reference(w, frame, ins),
    })
}

ghost use Rattle.std.specs.Prelude.{◌≡◌, List, map, length, IfOk};
ghost use Rattle.code_flow.specs.BlockTests.{spans_of};
ghost use Rattle.code_flow.specs.Frames.{Frame};
ghost use Rattle.code_flow.specs.Marks.{HaveMarks, set_mark, marked, filter_places, span_places, marked_code, marked_clauses, all_marks};

use crate::blocks::{Span, Spans};
use crate::leaving::targets_of;
use assembly_tree::Ins;
use il_lists::NoMemory;
use std::alloc::Global;

/// Sets the mark at a place, where there is one.
pub fn mark(marks: &mut Vec<bool>, place: u32)
    ensures { marks.new.items ≡ set_mark marks.old.items place }
{
    if (place as usize) < marks.len() {
        marks[place as usize] = true;
    }
}

fn mark_each(marks: &mut Vec<bool>, places: &[u32])
    ensures { marks.new.items ≡ marked marks.old.items places.now }
{
    for place in places {
        mark(marks, *place);
    }
}

fn mark_filter(marks: &mut Vec<bool>, filter: Option<Span>)
    ensures { marks.new.items ≡ marked marks.old.items (filter_places filter) }
{
    match filter {
        Some(filter) => mark(marks, filter.start),
        None => {}
    }
}

/// Marks where the blocks of a clause start and end.
fn mark_clause(marks: &mut Vec<bool>, clause: &Spans)
    ensures { marks.new.items ≡ marked marks.old.items (span_places clause.now) }
{
    mark(marks, clause.guarded.start);
    mark(marks, clause.guarded.end);
    mark(marks, clause.handler.start);
    mark(marks, clause.handler.end);
    mark_filter(marks, clause.filter);
}

fn mark_targets(marks: &mut Vec<bool>, code: &[Ins])
    ensures { marks.new.items ≡ marked_code marks.old.items code.now }
{
    for ins in code {
        mark_each(marks, targets_of(&ins.operand));
    }
}

fn mark_clauses(marks: &mut Vec<bool>, clauses: &[Spans])
    ensures { marks.new.items ≡ marked_clauses marks.old.items clauses.now }
{
    for clause in clauses {
        mark_clause(marks, clause);
    }
}

fn all_marks(alloc: Global, code: &[Ins], clauses: &[Spans]) -> Result<Vec<bool>, NoMemory>
    ensures { IfOk result (λ marks. marks.items ≡ all_marks code.now clauses.now) }
{
    let mut marks = vec![in alloc; false; code.len()]?;
    mark_targets(&mut marks, code);
    mark_clauses(&mut marks, clauses);
    Ok(marks)
}

/// For each instruction whether control may come to it from elsewhere: whether it is a target, or a block starts or
/// ends there (ECMA-335 III.2).
pub fn marks_of(alloc: Global, code: &[Ins], clauses: &[Spans]) -> Result<Vec<bool>, NoMemory>
    ensures are { IfOk result (λ marks. (f : Frame) → f.code ≡ code.now → clauses.now ≡ map spans_of f.clauses → HaveMarks f marks.items) }
    ensures count { IfOk result (λ marks. length marks.items ≡ length code.now) }
{
    let marks = all_marks(alloc, code, clauses)?;
    Ok(marks)
}

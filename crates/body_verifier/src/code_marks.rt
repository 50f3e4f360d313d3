//! Marks for the instructions of a body, by which the rules that ask no stack are told.
ghost use Rattle.std.specs.Prelude.{◌≡◌, ◌<◌, ◌^◌, map, length, replicate, false, IfOk};
ghost use Rattle.code_flow.specs.BlockTests.{spans_of};
ghost use Rattle.body_verifier.specs.CodeMarks.{HaveTries, marked_tries, AreAsMany, AreCodeMarks};
ghost use Rattle.code_flow.specs.Frames.{Frame};

use assembly_tree::Ins;
use code_flow::blocks::Spans;
use code_flow::marks::{mark, marks_of};
use code_flow::prefixes::pasts_of;
use il_lists::{Items, NoMemory};
use std::alloc::Global;

/// What is told of each instruction of a body.
#[derive(Drop)]
pub(crate) struct CodeMarks {
    /// Whether control may come to it from elsewhere.
    pub entered: Vec<bool>,
    /// The first place behind it at which no prefix stands.
    pub pasts: Items<u32>,
    /// Whether a try begins there.
    pub tries: Vec<bool>,
}

fn mark_tries(marks: &mut Vec<bool>, clauses: &[Spans])
    ensures { marks.new.items ≡ marked_tries marks.old.items clauses.now }
{
    for clause in clauses {
        mark(marks, clause.guarded.start);
    }
}

fn all_tries(alloc: Global, count: usize, clauses: &[Spans]) -> Result<Vec<bool>, NoMemory>
    ensures { IfOk result (λ marks. marks.items ≡ marked_tries (replicate count false) clauses.now) }
{
    let mut marks = vec![in alloc; false; count]?;
    mark_tries(&mut marks, clauses);
    Ok(marks)
}

/// For each of `count` instructions whether a try begins there.
fn tries_of(alloc: Global, count: usize, clauses: &[Spans]) -> Result<Vec<bool>, NoMemory>
    ensures are { IfOk result (λ marks. (f : Frame) → length f.code ≡ count → clauses.now ≡ map spans_of f.clauses → HaveTries f marks.items) }
    ensures count { IfOk result (λ marks. length marks.items ≡ count) }
{
    let marks = all_tries(alloc, count, clauses)?;
    Ok(marks)
}

/// The marks for the instructions of a body.
pub(crate) fn code_marks(
    alloc: Global,
    code: &[Ins],
    clauses: &[Spans],
) -> Result<CodeMarks, NoMemory>
    requires { length code.now < 2 ^ 32 }
    ensures are { IfOk result (λ m. (f : Frame) → f.code ≡ code.now → clauses.now ≡ map spans_of f.clauses → AreCodeMarks f m) }
    ensures many { IfOk result (λ m. AreAsMany code.now m) }
{
    let entered = marks_of(alloc, code, clauses)?;
    let pasts = pasts_of(alloc, code)?;
    let tries = tries_of(alloc, code.len(), clauses)?;
    Ok(CodeMarks {
        entered,
        pasts,
        tries,
    })
}

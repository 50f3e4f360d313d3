//! Exception clauses (ECMA-335 II.19).
ghost use Rattle.std.specs.Prelude.{◌≡◌, OnOk, fold};
ghost use Rattle.std.specs.List.{list_any};
ghost use Rattle.listing_model.specs.Bodies.{clause, ends_last};
ghost use Rattle.print_terms.specs.Rows.{under};
ghost use Rattle.print_bodies.specs.Lines.{range_drawn, kind_drawn, ends_at};

use crate::offsets::Offsets;
use assembly_tree::{Clause, ClauseKind, Ins};
use il_lexer::word;
use il_lists::NoMemory;
use print_leaves::Paper;
use print_terms::{ExternKeys, write_owner};

/// A line for each clause.
pub(crate) fn write_clauses(
    paper: &mut Paper,
    externs: &ExternKeys<'_>,
    code: &Offsets<'_>,
    clauses: &[Clause],
) -> Result<(), NoMemory>
    ensures { OnOk result (paper.new ≡ fold (λ q c. under q (clause externs.now code.now c)) paper.old clauses.now) }
{
    for clause in clauses {
        write_clause(paper, externs, code, clause)?;
    }
    Ok(())
}

// `.try A to B`, and what handles it.
fn write_clause(
    paper: &mut Paper,
    externs: &ExternKeys<'_>,
    code: &Offsets<'_>,
    x: &Clause,
) -> Result<(), NoMemory>
    ensures { OnOk result (paper.new ≡ under paper.old (clause externs.now code.now x.now)) }
{
    paper.line(word::DOT_TRY)?;
    write_range(paper, code, x.try_start, x.try_end)?;
    write_kind(paper, externs, code, &x.kind)?;
    paper.word(word::HANDLER)?;
    write_range(paper, code, x.handler_start, x.handler_end)?;
    Ok(())
}

// What a clause handles.
fn write_kind(
    paper: &mut Paper,
    externs: &ExternKeys<'_>,
    code: &Offsets<'_>,
    kind: &ClauseKind,
) -> Result<(), NoMemory>
    ensures { OnOk result (paper.new ≡ kind_drawn externs.now code.now paper.old kind.now) }
{
    match kind {
        ClauseKind::Catch(owner) => {
            paper.word(word::CATCH)?;
            write_owner(paper, externs, owner)?;
            Ok(())
        }
        ClauseKind::Filter(start) => {
            paper.word(word::FILTER)?;
            code.write_label(paper, *start)?;
            Ok(())
        }
        ClauseKind::Finally => {
            paper.word(word::FINALLY)?;
            Ok(())
        }
        ClauseKind::Fault => {
            paper.word(word::FAULT)?;
            Ok(())
        }
    }
}

// `A to B`.
fn write_range(paper: &mut Paper, code: &Offsets<'_>, start: u32, end: u32) -> Result<(), NoMemory>
    ensures { OnOk result (paper.new ≡ range_drawn code.now paper.old start end) }
{
    code.write_label(paper, start)?;
    paper.word(word::TO)?;
    code.write_label(paper, end)?;
    Ok(())
}

/// Whether a clause ends where the code ends.
pub(crate) fn any_ends_last(code: &[Ins], clauses: &[Clause]) -> bool
    ensures { result ≡ list_any (ends_last code.now) clauses.now }
{
    clauses.iter().any(|clause| ends_last(code.len(), clause))
}

fn ends_last(end: usize, clause: &Clause) -> bool
    ensures { result ≡ ends_at end clause.now }
{
    clause.try_end as usize == end || clause.handler_end as usize == end
}

//! Bodies (ECMA-335 II.15.4.1, II.25.4).
ghost use Rattle.std.specs.Prelude.{◌≡◌, OnOk};
ghost use Rattle.listing_model.specs.Bodies.{body};
ghost use Rattle.print_bodies.specs.Lines.{code_drawn, end_drawn};
ghost use Rattle.print_terms.specs.Rows.{in_row};

use crate::clauses::{any_ends_last, write_clauses};
use crate::instructions::write_instructions;
use crate::locals::write_locals;
use crate::offsets::Offsets;
use assembly_tree::{Body, Clause, Ins};
use il_lexer::word;
use il_lists::NoMemory;
use print_leaves::Paper;
use print_terms::ExternKeys;
use std::alloc::Global;

/// The lines of a body: `.maxstack`, locals, instructions, the end's label where a clause ends there, and the clauses.
pub fn write_body(
    paper: &mut Paper,
    alloc: Global,
    externs: &ExternKeys<'_>,
    x: &Body,
) -> Result<(), NoMemory>
    ensures { OnOk result (paper.new ≡ in_row paper.old (body externs.now x.now)) }
{
    paper.line(word::DOT_MAXSTACK)?;
    paper.natural(u64::from(x.bound))?;
    write_locals(paper, externs, x.init, x.locals.as_slice())?;
    write_code(
        paper,
        alloc,
        externs,
        x.code.as_slice(),
        x.clauses.as_slice(),
    )?;
    Ok(())
}

// Instructions, the end's label, and clauses.
fn write_code(
    paper: &mut Paper,
    alloc: Global,
    externs: &ExternKeys<'_>,
    code: &[Ins],
    clauses: &[Clause],
) -> Result<(), NoMemory>
    ensures { OnOk result (paper.new ≡ code_drawn externs.now paper.old code.now clauses.now) }
{
    let offsets = Offsets::new(alloc, code)?;
    write_instructions(paper, externs, &offsets, code)?;
    let ends = any_ends_last(code, clauses);
    write_end(paper, ends, offsets.at(code.len()))?;
    write_clauses(paper, externs, &offsets, clauses)?;
    Ok(())
}

// The end's label alone, where a clause ends there.
fn write_end(paper: &mut Paper, ends: bool, offset: u64) -> Result<(), NoMemory>
    ensures { OnOk result (paper.new ≡ end_drawn paper.old ends offset) }
{
    if ends {
        paper.label_line(offset)?;
    }
    Ok(())
}

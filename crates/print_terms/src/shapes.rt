//! The shapes of arrays (ECMA-335 II.14.2).
ghost use Rattle.std.specs.Prelude.{◌≡◌, None, Some, drop, OnOk};
ghost use Rattle.listing_model.specs.Shown.{none};
ghost use Rattle.listing_model.specs.Types.{first, bound, bound_opt, dimensions, shape, brackets};
ghost use Rattle.print_leaves.specs.Page.{drawn};
ghost use Rattle.print_terms.specs.Rows.{under};
ghost use Rattle.print_terms.specs.Shapes.{dimensions_drawn, lone_drawn, others_drawn};

use il_lexer::word;
use il_lists::NoMemory;
use print_leaves::Paper;

/// `[`, a dimension for each of the rank, and `]`.
pub fn write_shape(
    paper: &mut Paper,
    rank: u32,
    sizes: &[u32],
    lower: &[i32],
) -> Result<(), NoMemory>
    ensures { OnOk result (paper.new ≡ under paper.old (brackets (shape (dimensions rank sizes.now lower.now)))) }
{
    paper.word(word::OPEN_BRACKET)?;
    write_dimensions(paper, rank, sizes, lower)?;
    paper.word(word::CLOSE_BRACKET)?;
    Ok(())
}

// The dimensions with commas between them.
fn write_dimensions(
    paper: &mut Paper,
    rank: u32,
    sizes: &[u32],
    lower: &[i32],
) -> Result<(), NoMemory>
    ensures { OnOk result (paper.new ≡ dimensions_drawn paper.old (dimensions rank sizes.now lower.now)) }
{
    if rank == 0 {
        return Ok(());
    }
    write_first(paper, rank, head_of(sizes), signed_head_of(lower))?;
    write_others(paper, rank - 1, rest_of(sizes), rest_of(lower))?;
    Ok(())
}

// The first dimension: `...` where it is the only one and has neither size nor bound.
fn write_first(
    paper: &mut Paper,
    rank: u32,
    size: Option<u32>,
    lower: Option<i32>,
) -> Result<(), NoMemory>
    ensures { OnOk result (paper.new ≡ lone_drawn paper.old rank (bound size lower)) }
{
    if rank == 1 && size.is_none() && lower.is_none() {
        paper.word(word::ELLIPSIS)?;
        return Ok(());
    }
    write_bound(paper, size, lower)?;
    Ok(())
}

// Each of the others behind a comma.
fn write_others(paper: &mut Paper, count: u32, sizes: &[u32], lower: &[i32]) -> Result<(), NoMemory>
    ensures { OnOk result (paper.new ≡ others_drawn paper.old (dimensions count sizes.now lower.now)) }
{
    let mut sizes = sizes;
    let mut lower = lower;
    for k in 0..count {
        paper.word(word::COMMA)?;
        write_bound(paper, head_of(sizes), signed_head_of(lower))?;
        sizes = rest_of(sizes);
        lower = rest_of(lower);
    }
    Ok(())
}

// The first of a list.
fn head_of(list: &[u32]) -> Option<u32>
    ensures { result ≡ first list.now }
{
    match list {
        [] => None,
        [head, ..] => Some(*head),
    }
}

fn signed_head_of(list: &[i32]) -> Option<i32>
    ensures { result ≡ first list.now }
{
    match list {
        [] => None,
        [head, ..] => Some(*head),
    }
}

// A list without its first.
fn rest_of<T>(list: &[T]) -> &[T]
    ensures { result.now ≡ drop 1 list.now }
{
    match list {
        [] => list,
        [_, rest @ ..] => rest,
    }
}

// A dimension by its size and its lower bound: `n`, `l...`, `l...u`, or nothing.
fn write_bound(paper: &mut Paper, size: Option<u32>, lower: Option<i32>) -> Result<(), NoMemory>
    ensures { OnOk result (paper.new ≡ drawn paper.old (bound_opt (bound size lower) none)) }
{
    match lower {
        Some(lower) => {
            write_range(paper, size, lower)?;
            Ok(())
        }
        None => {
            write_size(paper, size)?;
            Ok(())
        }
    }
}

// `n`, or nothing.
fn write_size(paper: &mut Paper, size: Option<u32>) -> Result<(), NoMemory>
    ensures { OnOk result (paper.new ≡ drawn paper.old (bound_opt (bound size None) none)) }
{
    if let Some(size) = size {
        paper.natural(u64::from(size))?;
    }
    Ok(())
}

// `l...`, or `l...u` where there is a size.
fn write_range(paper: &mut Paper, size: Option<u32>, lower: i32) -> Result<(), NoMemory>
    ensures { OnOk result (paper.new ≡ drawn paper.old (bound_opt (bound size (Some lower)) none)) }
{
    let lower = i128::from(lower);
    paper.integer(lower)?;
    paper.word(word::ELLIPSIS)?;
    if let Some(size) = size {
        paper.integer(lower + i128::from(size) - 1)?;
    }
    Ok(())
}

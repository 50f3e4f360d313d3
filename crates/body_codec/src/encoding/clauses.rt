ghost use Rattle.std.specs.Prelude.{◌≡◌, ◌<◌, ◌^◌, ℕ, length, map, IfOk};
ghost use Rattle.std.specs.List.{All};
ghost use Rattle.assembly_tree.specs.declared.body.ClauseKind.TheVariants as handled;
ghost use Rattle.body_codec.specs.Written.{AreRangesWithin, class_or_filter, kind_number, row_of, token_map};

use crate::ClauseRow;
use assembly_tree::{Clause, ClauseKind};
use il_lists::{Items, NoMemory};
use sig_codec::Numberer;
use std::alloc::Global;

/// The clauses in offsets.
pub(crate) fn rows_of<N: Numberer>(
    alloc: Global,
    clauses: &[Clause],
    offsets: &[u32],
    numberer: &N,
) -> Result<Items<ClauseRow>, NoMemory>
    requires { All (AreRangesWithin (length offsets.now)) clauses.now }
    ensures fit { IfOk result (All (λ r. r.class_or_filter < 2 ^ 32)) }
    ensures rows { IfOk result (λ rows. rows ≡ map (row_of (token_map (N.owner_tokens numberer.now) (N.method_tokens numberer.now) (N.field_tokens numberer.now) (N.locals_tokens numberer.now) (N.text_tokens numberer.now)) offsets.now) clauses.now) }
{
    let mut rows = Items::with_capacity(alloc, clauses.len())?;
    for clause in clauses {
        rows.push(row_of(clause, offsets, numberer))?;
    }
    Ok(rows)
}

/// A clause in offsets (II.25.4.6).
#[tactic(auto, unfolding(crate::specs::Written::row_of))]
fn row_of<N: Numberer>(clause: &Clause, offsets: &[u32], numberer: &N) -> ClauseRow
    requires { AreRangesWithin (length offsets.now) clause.now }
    ensures fit { result.class_or_filter < 2 ^ 32 }
    ensures row { result ≡ row_of (token_map (N.owner_tokens numberer.now) (N.method_tokens numberer.now) (N.field_tokens numberer.now) (N.locals_tokens numberer.now) (N.text_tokens numberer.now)) offsets.now clause.now }
{
    let try_offset = offsets[clause.try_start as usize];
    let handler_offset = offsets[clause.handler_start as usize];
    ClauseRow {
        kind: kind_number(&clause.kind),
        try_offset,
        try_length: offsets[clause.try_end as usize].saturating_sub(try_offset),
        handler_offset,
        handler_length: offsets[clause.handler_end as usize].saturating_sub(handler_offset),
        class_or_filter: class_or_filter(&clause.kind, offsets, numberer),
    }
}

/// The number of what a clause handles.
fn kind_number(kind: &ClauseKind) -> u32
    ensures { result ≡ kind_number kind.now }
{
    match kind {
        ClauseKind::Catch(_) => 0,
        ClauseKind::Filter(_) => 1,
        ClauseKind::Finally => 2,
        ClauseKind::Fault => 4,
    }
}

/// The token of what a clause catches, or the offset of its filter.
fn class_or_filter<N: Numberer>(kind: &ClauseKind, offsets: &[u32], numberer: &N) -> u32
    requires { (at : ℕ) → kind.now ≡ handled.Filter at → at < length offsets.now }
    ensures { result ≡ class_or_filter (token_map (N.owner_tokens numberer.now) (N.method_tokens numberer.now) (N.field_tokens numberer.now) (N.locals_tokens numberer.now) (N.text_tokens numberer.now)) offsets.now kind.now }
{
    match kind {
        ClauseKind::Catch(owner) => numberer.token_of_owner(owner).unwrap_or(0),
        ClauseKind::Filter(at) => offsets[*at as usize],
        ClauseKind::Finally | ClauseKind::Fault => 0,
    }
}

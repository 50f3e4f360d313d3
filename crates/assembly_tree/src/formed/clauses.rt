ghost use Rattle.std.specs.Prelude.{◌≡◌};
ghost use Rattle.std.specs.List.{list_all};
ghost use Rattle.assembly_tree.specs.WellFormedBodies.{filter_before, is_forward, is_filter_inside, is_inside, is_handled, is_clause};

use super::formed_parts::Formed;
use crate::{Assembly, Clause, ClauseKind, Clauses};

/// Whether a filter starts before its handler.
fn filter_before(start: u32, kind: &ClauseKind) -> bool
    ensures { result ≡ filter_before start kind.now }
{
    match kind {
        ClauseKind::Filter(at) => *at < start,
        ClauseKind::Catch(_) | ClauseKind::Finally | ClauseKind::Fault => true,
    }
}

/// Whether no range of the clause is empty or backwards.
fn is_forward(clause: &Clause) -> bool
    ensures { result ≡ is_forward clause.now }
{
    clause.try_start < clause.try_end
        && clause.handler_start < clause.handler_end
        && filter_before(clause.handler_start, &clause.kind)
}

/// Whether a filter starts at one of so many instructions or their end.
fn is_filter_inside(count: usize, kind: &ClauseKind) -> bool
    ensures { result ≡ is_filter_inside count kind.now }
{
    match kind {
        ClauseKind::Filter(at) => *at as usize <= count,
        ClauseKind::Catch(_) | ClauseKind::Finally | ClauseKind::Fault => true,
    }
}

/// Whether no number of the clause is above that of the instructions.
fn is_inside(count: usize, clause: &Clause) -> bool
    ensures { result ≡ is_inside count clause.now }
{
    clause.try_start as usize <= count
        && clause.try_end as usize <= count
        && clause.handler_start as usize <= count
        && clause.handler_end as usize <= count
        && is_filter_inside(count, &clause.kind)
}

/// Whether each clause is forward, and inside so many instructions.
pub fn are_clauses(count: usize, clauses: &Clauses) -> bool
    ensures { result ≡ list_all (is_clause count) clauses.now }
{
    clauses
        .as_slice()
        .iter()
        .all(|clause| is_clause(count, clause))
}

#[tactic(auto, unfolding(crate::specs::WellFormedBodies::is_clause))]
fn is_clause(count: usize, clause: &Clause) -> bool
    ensures { result ≡ is_clause count clause.now }
{
    is_forward(clause) && is_inside(count, clause)
}

impl Formed for Clause {
    ghost formed = { λ a c. is_handled a c.kind };

    fn is_formed(&self, a: &Assembly) -> bool {
        match &self.kind {
            ClauseKind::Catch(owner) => owner.is_formed(a),
            ClauseKind::Filter(_) | ClauseKind::Finally | ClauseKind::Fault => true,
        }
    }
}

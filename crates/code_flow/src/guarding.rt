ghost use Rattle.std.specs.Prelude.{◌≡◌, ◌<◌, ◌+◌, ◌++◌, ℕ, false, length, replicate, IfOk, OnOk};
ghost use Rattle.code_flow.specs.GoingTests.{filter_going, handled, guarded_by, guards_from};
ghost use Rattle.code_flow.specs.Marks.{marked_bounds};
ghost use Rattle.code_flow.specs.Regions.{guards_among};

use crate::blocks::{Handling, Span, Spans};
use crate::clauses::{Clauses, Placed};
use crate::goings::{Carried, Going};
use crate::marks::mark;
use il_lists::{Items, NoMemory};
use std::alloc::Global;

fn add_filter(goings: &mut Items<Going>, filter: Option<Span>) -> Result<(), NoMemory>
    ensures { OnOk result (goings.new ≡ goings.old ++ filter_going filter) }
{
    match filter {
        Some(filter) => goings.push(Going {
            to: filter.start,
            carries: Carried::Object,
        }),
        None => Ok(()),
    }
}

/// Adds the edges from an instruction of a clause's try to its handler and filter.
fn add_handled(goings: &mut Items<Going>, clause: &Spans, place: u32) -> Result<(), NoMemory>
    ensures { OnOk result (goings.new ≡ goings.old ++ handled place clause.now) }
{
    let to = clause.handler.start;
    match clause.handling {
        Handling::Catch => goings.push(Going {
            to,
            carries: Carried::Caught(place),
        }),
        Handling::Filter => {
            goings.push(Going {
                to,
                carries: Carried::Object,
            })?;
            add_filter(goings, clause.filter)
        }
        Handling::Finally | Handling::Fault => goings.push(Going {
            to,
            carries: Carried::Nothing,
        }),
    }
}

/// The same, if the try holds `k`.
fn add_guarded(
    goings: &mut Items<Going>,
    clause: &Spans,
    place: u32,
    k: u32,
) -> Result<(), NoMemory>
    ensures { OnOk result (goings.new ≡ goings.old ++ guarded_by k place clause.now) }
{
    if clause.guarded.holds(k) {
        add_handled(goings, clause, place)
    } else {
        Ok(())
    }
}

/// Adds the edges from instruction `k` to the handlers and filters of those of these clauses whose tries hold it.
fn add_guards(goings: &mut Items<Going>, placed: &[Placed], k: u32) -> Result<(), NoMemory>
    ensures { OnOk result (goings.new ≡ goings.old ++ guards_among k placed.now) }
{
    for clause in placed {
        add_guarded(goings, &clause.spans, clause.place, k)?;
    }
    Ok(())
}

/// The edges from instruction `k` to handlers and filters.
fn guards_near(alloc: Global, clauses: &Clauses, k: u32) -> Result<Items<Going>, NoMemory>
    ensures { IfOk result (λ guards. guards ≡ guards_from k 0 clauses.now) }
{
    let mut guards = Items::new(alloc);
    add_guards(&mut guards, clauses.near(k).placed.as_slice(), k)?;
    Ok(guards)
}

fn mark_bounds(marks: &mut Vec<bool>, clauses: &[Spans])
    ensures { marks.new.items ≡ marked_bounds marks.old.items clauses.now }
{
    for clause in clauses {
        mark(marks, clause.guarded.start);
        mark(marks, clause.guarded.end);
    }
}

/// For each of `count` instructions whether a try begins or ends there.
pub fn bounds_of(alloc: Global, count: usize, clauses: &[Spans]) -> Result<Vec<bool>, NoMemory>
    ensures { IfOk result (λ marks. marks.items ≡ marked_bounds (replicate count false) clauses.now) }
{
    let mut marks = vec![in alloc; false; count]?;
    mark_bounds(&mut marks, clauses);
    Ok(marks)
}

/// The edges from instruction `k` to handlers and filters, by those from the instruction before: they are the same where no
/// try begins or ends.
pub fn guards_at(
    alloc: Global,
    clauses: &Clauses,
    bounds: &[bool],
    k: u32,
    before: Items<Going>,
) -> Result<Items<Going>, NoMemory>
    requires bounds { bounds.now ≡ marked_bounds (replicate (length bounds.now) false) clauses.now }
    requires k { k < length bounds.now }
    requires before { (j : ℕ) → j + 1 ≡ k → before ≡ guards_from j 0 clauses.now }
    ensures { IfOk result (λ guards. guards ≡ guards_from k 0 clauses.now) }
{
    if 0 < k && !bounds[k as usize] {
        return Ok(before);
    }
    guards_near(alloc, clauses, k)
}

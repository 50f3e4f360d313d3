ghost use Rattle.std.specs.Prelude.{◌≡◌, ◌<◌, ◌-◌, ◌^◌, ◌↔◌, ◌&&◌, map, IsTrue};
ghost use Rattle.std.specs.List.{list_all};
ghost use Rattle.code_flow.specs.Frames.{Frame};
ghost use Rattle.code_flow.specs.Rules.{MayLeave, MayRethrow, MayEndFinally, MayEndFilter};
ghost use Rattle.code_flow.specs.BlockTests.{spans_of, blocks_all, handling_all};
ghost use Rattle.code_flow.specs.PlaceTests.{catches, opens, releases, clause_releases, may_leave_test, encloses, is_innermost_range, is_innermost_handling, rethrows_in, may_rethrow_test, ends_finally_in, may_end_finally_test, is_last_of, ends_filter_in, may_end_filter_test};

use crate::blocks::{Handling, Span, Spans};
use crate::clauses::Clauses;

impl Handling {
    /// Whether it is that of a catch or filter clause.
    fn catches(self) -> bool
        ensures { result ≡ catches self }
    {
        match self {
            Handling::Catch | Handling::Filter => true,
            Handling::Finally | Handling::Fault => false,
        }
    }
}

impl Span {
    /// Whether a `leave` from `k` to `t` enters it, if at all, at its start.
    fn opens(self, k: u32, t: u32) -> bool
        ensures { result ≡ opens k t self }
    {
        self.holds(k) || !self.holds(t) || self.start == t
    }

    /// Whether a `leave` from `k` to `t` doesn't enter it.
    fn releases(self, k: u32, t: u32) -> bool
        ensures { result ≡ releases k t self }
    {
        self.holds(k) || !self.holds(t)
    }

    /// Whether the other range, where it holds `k`, has this one in it.
    fn is_enclosed(self, k: u32, other: Span) -> bool
        ensures { result ≡ encloses k self other }
    {
        !other.holds(k) || other.contains(self)
    }
}

impl Spans {
    /// Whether a `leave` from `k` to `t` is allowed as far as this clause goes.
    fn releases(&self, k: u32, t: u32) -> bool
        ensures { result ≡ clause_releases k t self.now }
    {
        let handler = if self.handling.catches() {
            self.handler.releases(k, t)
        } else {
            self.handler.keeps(k, t)
        };
        self.guarded.opens(k, t)
            && handler
            && match self.filter {
                Some(filter) => filter.keeps(k, t),
                None => true,
            }
    }

    /// Whether handler and filter, where they hold `k`, have the range in them.
    fn handling_encloses(&self, k: u32, inner: Span) -> bool
        ensures { result ≡ handling_all (encloses k inner) self.now }
    {
        inner.is_enclosed(k, self.handler)
            && match self.filter {
                Some(filter) => inner.is_enclosed(k, filter),
                None => true,
            }
    }

    /// Whether each block, where it holds `k`, has the range in it.
    fn encloses(&self, k: u32, inner: Span) -> bool
        ensures { result ≡ blocks_all (encloses k inner) self.now }
    {
        inner.is_enclosed(k, self.guarded) && self.handling_encloses(k, inner)
    }
}

fn all_enclose(clauses: &[Spans], k: u32, range: Span) -> bool
    ensures { result ≡ list_all (blocks_all (encloses k range)) clauses.now }
{
    clauses.iter().all(|clause| clause.encloses(k, range))
}

fn all_handling_encloses(clauses: &[Spans], k: u32, range: Span) -> bool
    ensures { result ≡ list_all (handling_all (encloses k range)) clauses.now }
{
    clauses
        .iter()
        .all(|clause| clause.handling_encloses(k, range))
}

/// Whether a range holds `k`, and each block that does has it in it.
pub fn is_innermost(clauses: &[Spans], k: u32, range: Span) -> bool
    ensures { result ≡ is_innermost_range clauses.now k range }
{
    range.holds(k) && all_enclose(clauses, k, range)
}

/// The same, by a look at the clauses near `k`.
pub fn is_innermost_near(clauses: &Clauses, k: u32, range: Span) -> bool
    ensures { result ≡ is_innermost_range clauses.now k range }
{
    is_innermost(clauses.near(k).spans.as_slice(), k, range)
}

/// The same of handlers and filters.
fn is_innermost_handler(clauses: &[Spans], k: u32, range: Span) -> bool
    ensures { result ≡ is_innermost_handling clauses.now k range }
{
    range.holds(k) && all_handling_encloses(clauses, k, range)
}

fn rethrows_in(clauses: &[Spans], k: u32, clause: &Spans) -> bool
    ensures { result ≡ rethrows_in clauses.now k clause.now }
{
    clause.handling.catches() && is_innermost_handler(clauses, k, clause.handler)
}

fn ends_finally_in(clauses: &[Spans], k: u32, clause: &Spans) -> bool
    ensures { result ≡ ends_finally_in clauses.now k clause.now }
{
    !clause.handling.catches() && is_innermost(clauses, k, clause.handler)
}

fn ends_filter_in(clauses: &[Spans], k: u32, clause: &Spans) -> bool
    requires { k < 2 ^ 32 - 1 }
    ensures { result ≡ ends_filter_in clauses.now k clause.now }
{
    match clause.filter {
        Some(filter) => filter.end == k + 1 && is_innermost(clauses, k, filter),
        None => false,
    }
}

pub fn both(a: bool, b: bool) -> bool
    ensures { result ≡ (a && b) }
{
    a && b
}

fn all_release_among(clauses: &[Spans], k: u32, t: u32) -> bool
    ensures { result ≡ may_leave_test clauses.now k t }
{
    clauses.iter().all(|clause| clause.releases(k, t))
}

fn any_rethrows_among(clauses: &[Spans], k: u32) -> bool
    ensures { result ≡ may_rethrow_test clauses.now k }
{
    clauses.iter().any(|clause| rethrows_in(clauses, k, clause))
}

fn any_ends_finally_among(clauses: &[Spans], k: u32) -> bool
    ensures { result ≡ may_end_finally_test clauses.now k }
{
    clauses
        .iter()
        .any(|clause| ends_finally_in(clauses, k, clause))
}

fn any_ends_filter_among(clauses: &[Spans], k: u32) -> bool
    requires { k < 2 ^ 32 - 1 }
    ensures { result ≡ may_end_filter_test clauses.now k }
{
    clauses
        .iter()
        .any(|clause| ends_filter_in(clauses, k, clause))
}

pub fn all_release(clauses: &Clauses, k: u32, t: u32) -> bool
    ensures { result ≡ may_leave_test clauses.now k t }
{
    let around = all_release_among(clauses.near(k).spans.as_slice(), k, t);
    let beyond = all_release_among(clauses.near(t).spans.as_slice(), k, t);
    both(around, beyond)
}

pub fn any_rethrows(clauses: &Clauses, k: u32) -> bool
    ensures { result ≡ may_rethrow_test clauses.now k }
{
    any_rethrows_among(clauses.near(k).spans.as_slice(), k)
}

pub fn any_ends_finally(clauses: &Clauses, k: u32) -> bool
    ensures { result ≡ may_end_finally_test clauses.now k }
{
    any_ends_finally_among(clauses.near(k).spans.as_slice(), k)
}

pub fn any_ends_filter(clauses: &Clauses, k: u32) -> bool
    requires { k < 2 ^ 32 - 1 }
    ensures { result ≡ may_end_filter_test clauses.now k }
{
    any_ends_filter_among(clauses.near(k).spans.as_slice(), k)
}

/// Whether a `leave` may go from `k` to `t` (ECMA-335 III.3.46).
pub fn may_leave(clauses: &Clauses, k: u32, t: u32) -> bool
    ensures { (f : Frame) → clauses.now ≡ map spans_of f.clauses → (IsTrue result ↔ MayLeave f k t) }
{
    all_release(clauses, k, t)
}

/// Whether `rethrow` may stand at `k` (III.4.24).
pub fn may_rethrow(clauses: &Clauses, k: u32) -> bool
    ensures { (f : Frame) → clauses.now ≡ map spans_of f.clauses → (IsTrue result ↔ MayRethrow f k) }
{
    any_rethrows(clauses, k)
}

/// Whether `endfinally` may stand at `k` (III.3.35).
pub fn may_end_finally(clauses: &Clauses, k: u32) -> bool
    ensures { (f : Frame) → clauses.now ≡ map spans_of f.clauses → (IsTrue result ↔ MayEndFinally f k) }
{
    any_ends_finally(clauses, k)
}

/// Whether `endfilter` may stand at `k` (III.3.34).
pub fn may_end_filter(clauses: &Clauses, k: u32) -> bool
    requires { k < 2 ^ 32 - 1 }
    ensures { (f : Frame) → clauses.now ≡ map spans_of f.clauses → (IsTrue result ↔ MayEndFilter f k) }
{
    any_ends_filter(clauses, k)
}

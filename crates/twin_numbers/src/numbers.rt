ghost use Rattle.std.specs.Prelude.{◌≡◌, ◌<◌, ◌≤◌, ◌+◌, ℕ, IfOk, OnOk, IfSome, IfNone};
ghost use Rattle.row_twins.specs.Linked.{HasRow};
ghost use Rattle.row_twins.specs.Twins.{IsWithin};
ghost use Rattle.twin_numbers.specs.Numbered.{IsEquivalence, NumberTwins, AreFirsts, IsNumber};

use il_base::{Items, NoMemory, Numbers};
use row_twins::{HashedRows, Likeness, RowTest};
use std::alloc::Global;

/// For each row, and for row 0 besides, the first row that it is like. Each row is looked at once, and compared with those first
/// rows that have its hash.
///
/// # Errors
///
/// There was no memory for the numbers.
pub fn number_twins<L: Likeness>(alloc: Global, rows: &L) -> Result<Numbers, NoMemory>
    requires ready { L.ready rows.now }
    requires same { IsEquivalence (L.rows rows.now) (L.alike rows.now) }
    ensures { IfOk result (λ numbers. NumberTwins (L.rows rows.now) (L.alike rows.now) numbers) }
{
    let mut firsts = HashedRows::new(alloc);
    let mut numbers = Items::one(alloc, 0)?;
    for k in 0..rows.count() {
        let number = number_of(rows, &mut firsts, k + 1)?;
        numbers.push(number)?;
    }
    Ok(numbers)
}

/// The first row that a row is like, which it may be itself; then it is kept.
fn number_of<L: Likeness>(rows: &L, firsts: &mut HashedRows, row: u32) -> Result<u32, NoMemory>
    requires ready { L.ready rows.now }
    requires same { IsEquivalence (L.rows rows.now) (L.alike rows.now) }
    requires within { IsWithin (L.rows rows.now) row }
    requires firsts { AreFirsts (L.rows rows.now) (L.alike rows.now) (L.hashed rows.now) firsts.old }
    ensures firsts { OnOk result (AreFirsts (L.rows rows.now) (L.alike rows.now) (L.hashed rows.now) firsts.new) }
    ensures stay { OnOk result ((hash first : ℕ) → HasRow firsts.old.rows hash first → HasRow firsts.new.rows hash first) }
    ensures number { IfOk result (IsNumber (L.alike rows.now) firsts.new row) }
{
    rows.alike_are_hashed_alike();
    let hash = rows.hash_of(row);
    if let Some(first) = find_twin(rows, firsts, hash, row) {
        return Ok(first);
    }
    firsts.add(hash, row)?;
    Ok(row)
}

/// The first row with this hash that a row is like.
fn find_twin<L: Likeness>(rows: &L, firsts: &HashedRows, hash: u64, row: u32) -> Option<u32>
    requires ready { L.ready rows.now }
    requires within { IsWithin (L.rows rows.now) row }
    requires firsts { AreFirsts (L.rows rows.now) (L.alike rows.now) (L.hashed rows.now) firsts.now }
    ensures found { IfSome result (λ first. HasRow firsts.now.rows hash first × L.alike rows.now first row) }
    ensures none { IfNone result ((first : ℕ) → HasRow firsts.now.rows hash first → L.alike rows.now first row → ⊥) }
{
    let twin = Twin { rows, row };
    firsts.find(hash, &twin)
}

/// A row whose twin is looked for.
#[derive(Drop)]
struct Twin<'l, L: Likeness> {
    rows: &'l L,
    row: u32,
}

impl<'l, L: Likeness> RowTest for Twin<'l, L> {
    ghost use Rattle.row_twins.specs.Twins.{IsWithin};

    ghost may = { λ it other. L.ready it.rows.now × IsWithin (L.rows it.rows.now) other × IsWithin (L.rows it.rows.now) it.row };

    ghost holds = { λ it other. L.alike it.rows.now other it.row };

    fn holds_of(&self, row: u32) -> bool {
        self.rows.are_alike(row, self.row)
    }
}

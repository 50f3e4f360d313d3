ghost use Rattle.std.specs.Prelude.{◌≡◌, ◌<◌, ◌≤◌, ◌↔◌, ℕ, IsTrue, IfOk};
ghost use Rattle.row_twins.specs.Twins.{IsWithin, IsFirstTwin, AreSeen, HasTwin};

use crate::{HashedRows, RowTest};
use il_base::NoMemory;
use std::alloc::Global;
use std::marker::Model;

/// When rows of a table are alike. Rows are counted from 1.
pub trait Likeness {
    /// What is known of the rows, so that they may be asked.
    ghost ready: { Self → Type 0 };

    /// How many rows there are.
    ghost rows: { Self → ℕ };

    /// Two rows are alike.
    ghost alike: { Self → ℕ → ℕ → Type 0 };

    /// A row has a hash.
    ghost hashed: { Self → ℕ → ℕ → Type 0 };

    /// How many rows there are.
    fn count(&self) -> u32
        ensures { result ≡ rows self.now };

    /// The hash of a row.
    fn hash_of(&self, row: u32) -> u64
        requires ready { ready self.now }
        requires within { IsWithin (rows self.now) row }
        ensures { hashed self.now row result };

    /// Whether two rows are alike.
    fn are_alike(&self, one: u32, other: u32) -> bool
        requires ready { ready self.now }
        requires one { IsWithin (rows self.now) one }
        requires other { IsWithin (rows self.now) other }
        ensures { IsTrue result ↔ alike self.now one other };

    /// A law: rows that are alike have one hash.
    fn alike_are_hashed_alike(&self)
        requires { ready self.now }
        ensures { (one other g h : ℕ) → IsWithin (rows self.now) one → IsWithin (rows self.now) other → alike self.now one other → hashed self.now one g → hashed self.now other h → g ≡ h };
}

/// The first row that is like an earlier one. Each row is looked at once, and compared with those that have its hash.
///
/// # Errors
///
/// There was no memory for the rows' hashes.
pub fn first_twin<L: Likeness>(alloc: Global, rows: &L) -> Result<Option<u32>, NoMemory>
    requires { L.ready rows.now }
    ensures { IfOk result (λ twin. IsFirstTwin (L.rows rows.now) (L.alike rows.now) twin) }
{
    rows.alike_are_hashed_alike();
    let mut seen = HashedRows::new(alloc);
    for k in 0..rows.count() {
        let row = k + 1;
        let hash = rows.hash_of(row);
        if has_twin(rows, &seen, hash, row) {
            return Ok(Some(row));
        }
        seen.add(hash, row)?;
    }
    Ok(None)
}

/// Whether a row is like one of those before it, which were seen with their hashes.
fn has_twin<L: Likeness>(rows: &L, seen: &HashedRows, hash: u64, row: u32) -> bool
    requires ready { L.ready rows.now }
    requires within { IsWithin (L.rows rows.now) row }
    requires hashed { L.hashed rows.now row hash }
    requires seen { AreSeen (L.rows rows.now) (L.hashed rows.now) row seen.now }
    ensures { IsTrue result ↔ HasTwin (L.alike rows.now) row }
{
    rows.alike_are_hashed_alike();
    let twin = Twin { rows, row };
    match seen.find(hash, &twin) {
        Some(_) => true,
        None => false,
    }
}

/// A row whose twin is looked for.
#[derive(Drop)]
struct Twin<'l, L: Likeness> {
    rows: &'l L,
    row: u32,
}

impl<'l, L: Likeness> RowTest for Twin<'l, L> {
    ghost use Rattle.row_twins.specs.Twins.{IsWithin};

    ghost may = { λ it other. L.ready it.rows.now × IsWithin (L.rows it.rows.now) other × IsWithin (L.rows it.rows.now) it.row };

    ghost holds = { λ it other. L.alike it.rows.now other it.row };

    fn holds_of(&self, row: u32) -> bool {
        self.rows.are_alike(row, self.row)
    }
}

ghost use Rattle.std.specs.Prelude.{◌≡◌, ◌<◌, ◌↔◌, ◌^◌, ℕ, [], IsTrue, IfSome, IfNone, OnOk, length};
ghost use Rattle.row_twins.specs.Linked.{AreLinked, HasRow, AddsRow};

use hash_places::HashPlaces;
use il_base::{Items, NoMemory};
use std::alloc::Global;

/// A row with its hash.
#[derive(Debug, Clone, Copy)]
pub struct Hashed {
    /// The hash.
    pub hash: u64,
    /// The row.
    pub row: u32,
}

/// Rows in the order in which they were put in, found by their hashes.
#[derive(Drop)]
pub struct HashedRows {
    /// From a hash to the place of the last row with it.
    pub newest: HashPlaces,
    /// The rows.
    pub rows: Items<Hashed>,
    /// For each row the place of the last row before it with the same hash.
    pub nexts: Items<Option<usize>>,
}

/// A question about rows.
pub trait RowTest {
    /// A row may be asked.
    ghost may: { Self → ℕ → Type 0 };

    /// The answer is yes.
    ghost holds: { Self → ℕ → Type 0 };

    /// Whether it holds of a row.
    fn holds_of(&self, row: u32) -> bool
        requires { may self.now row }
        ensures { IsTrue result ↔ holds self.now row };
}

impl HashedRows {
    /// No rows. Takes no memory.
    pub fn new(alloc: Global) -> HashedRows
        ensures linked { AreLinked result }
        ensures empty { result.rows ≡ [] }
    {
        HashedRows {
            newest: HashPlaces::new(alloc),
            rows: Items::new(alloc),
            nexts: Items::new(alloc),
        }
    }

    /// Puts a row in.
    ///
    /// # Errors
    ///
    /// There was no memory for it; then the rows aren't to be used any more.
    pub fn add(&mut self, hash: u64, row: u32) -> Result<(), NoMemory>
        requires { AreLinked self.old }
        ensures linked { OnOk result (AreLinked self.new) }
        ensures added { OnOk result (AddsRow self.old.rows self.new.rows hash row) }
    {
        let next = self.newest.get(hash);
        let place = self.rows.as_slice().len();
        self.rows.push(Hashed { hash, row })?;
        self.nexts.push(next)?;
        self.newest.insert(hash, place)?;
        Ok(())
    }

    /// A row with this hash of which the test holds; None exactly where there is none.
    pub fn find<T: RowTest>(&self, hash: u64, test: &T) -> Option<u32>
        requires linked { AreLinked self.now }
        requires may { (row : ℕ) → HasRow self.now.rows hash row → T.may test.now row }
        ensures found { IfSome result (λ row. HasRow self.now.rows hash row × T.holds test.now row) }
        ensures none { IfNone result ((row : ℕ) → HasRow self.now.rows hash row → T.holds test.now row → ⊥) }
    {
        let mut at = self.newest.get(hash);
        while let Some(place) = at {
            let entry = self.rows.at(place);
            if test.holds_of(entry.row) {
                return Some(entry.row);
            }
            let next = self.nexts.at(place);
            at = *next;
        }
        None
    }
}

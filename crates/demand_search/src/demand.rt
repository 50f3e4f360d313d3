ghost use Rattle.std.specs.Prelude.{◌≡◌, ◌≤◌, ◌<◌, ◌↔◌, ◌⊎◌, ℕ, IsTrue, false};
ghost use Rattle.metadata_tables.specs.Faults.{IsEarlier};

/// One more than the greatest number of a table.
pub const TABLES: u8 = 45;

/// What is asked of each row of an image's tables (II.22), where row 0 stands for the number of rows of a table.
pub trait Demand {
    /// A row of a table meets it.
    ghost meets: { Self → ℕ → ℕ → Type 0 };

    /// How many rows a table has.
    ghost rows: { Self → ℕ → ℕ };

    /// Whether the demand speaks of rows of this table at all.
    fn asks(&self, table: u8) -> bool
        ensures { result ≡ false → (row : ℕ) → meets self.now table row };

    /// How many rows a table has.
    fn count(&self, table: u8) -> u32
        ensures { result ≡ rows self.now table };

    /// Whether a row meets the demand, where all rows before it do.
    fn row_meets(&self, table: u8, row: u32) -> bool
        requires there { row ≤ rows self.now table }
        requires before { (t r : ℕ) → IsEarlier t r table row → meets self.now t r }
        ensures { IsTrue result ↔ meets self.now table row };

    /// A law: rows that aren't there meet the demand, where those of their table that are there do.
    fn others_meet(&self)
        ensures { (table row : ℕ) → (45 ≤ table) ⊎ ((rows self.now table < row) × ((r : ℕ) → r ≤ rows self.now table → meets self.now table r)) → meets self.now table row };
}

ghost use Rattle.std.specs.Prelude.{◌≡◌, ◌≢◌, ◌≤◌, ◌++◌, ℕ, Bool, List, [], length, take, IsTrue, IfOk, OnErr};
ghost use Rattle.il_base.specs.Outside.{Rose};

use crate::Failed;

/// Standard output and standard error, as the program writes them.
///
/// A console may tell what bytes it took. It counts its failed calls in a count of 64 bits that never falls and stays
/// at its last value.
pub trait Console {
    /// Whether the console tells what it took.
    ghost tells: { Self → Bool };

    /// The bytes that `out` took, from the first on.
    ghost out_taken: { Self → List ℕ };

    /// The bytes that `err` took, from the first on.
    ghost err_taken: { Self → List ℕ };

    /// The count of failed calls.
    ghost failed: { Self → ℕ };

    /// Writes a front of `piece` to standard output, and answers how many bytes that is.
    ///
    /// # Errors
    ///
    /// Nothing could be written, and the count of failed calls rose. The told bytes are as before.
    fn out(&mut self, piece: &[u8]) -> Result<usize, Failed>
        ensures within { IfOk result (λ count. count ≤ length piece.now) }
        ensures told { IsTrue (tells self.old) → IfOk result (λ count. out_taken self.new ≡ out_taken self.old ++ take count piece.now) }
        ensures cause { OnErr result (Rose (failed self.old) (failed self.new)) }

        // To take nothing of a piece that isn't empty counts as a failure.
        ensures nothing { IfOk result (λ count. count ≡ 0 → piece.now ≢ [] → Rose (failed self.old) (failed self.new)) }

        // What stays.
        ensures err { IsTrue (tells self.old) → OnErr result (out_taken self.new ≡ out_taken self.old) }
        ensures same_err { IsTrue (tells self.old) → err_taken self.new ≡ err_taken self.old }
        ensures same_tells { tells self.new ≡ tells self.old }
        ensures count_stays { failed self.old ≤ failed self.new };

    /// Writes a front of `piece` to standard error, and answers how many bytes that is.
    ///
    /// # Errors
    ///
    /// Nothing could be written, and the count of failed calls rose. The told bytes are as before.
    fn err(&mut self, piece: &[u8]) -> Result<usize, Failed>
        ensures within { IfOk result (λ count. count ≤ length piece.now) }
        ensures told { IsTrue (tells self.old) → IfOk result (λ count. err_taken self.new ≡ err_taken self.old ++ take count piece.now) }
        ensures cause { OnErr result (Rose (failed self.old) (failed self.new)) }

        // To take nothing of a piece that isn't empty counts as a failure.
        ensures nothing { IfOk result (λ count. count ≡ 0 → piece.now ≢ [] → Rose (failed self.old) (failed self.new)) }

        // What stays.
        ensures err { IsTrue (tells self.old) → OnErr result (err_taken self.new ≡ err_taken self.old) }
        ensures same_out { IsTrue (tells self.old) → out_taken self.new ≡ out_taken self.old }
        ensures same_tells { tells self.new ≡ tells self.old }
        ensures count_stays { failed self.old ≤ failed self.new };
}

ghost use Rattle.std.specs.Prelude.{◌≡◌, ◌≢◌, ◌≤◌, ◌⊎◌, ◌++◌, ℕ, Bool, List, [], length, take, IsTrue, IfOk, OnOk, OnErr, IsErr};
ghost use Rattle.il_base.specs.Outside.{Files, Rose, ReadsAt, ChangesOnly, content};

use crate::Failed;

/// Files by their names, as the program reads and writes them.
///
/// A shelf may tell what its files hold. It counts its failed reads and its failed writes, each in a count of 64 bits
/// that never falls and stays at its last value.
pub trait Shelf {
    /// Whether the shelf tells its files.
    ghost tells: { Self → Bool };

    /// The files that it tells: the bytes under each name that is there.
    ghost files: { Self → Files };

    /// The count of failed reads.
    ghost failed_reads: { Self → ℕ };

    /// The count of failed calls of `start` and `append`.
    ghost failed_writes: { Self → ℕ };

    /// Reads bytes of the file `name` from the place `at` on into the front of `into`, and answers how many. Told are 0
    /// only at or past the file's end, or where `into` is empty.
    ///
    /// # Errors
    ///
    /// The read failed, and the count of failed reads rose; or the files are told, and `name` is absent.
    fn read(&mut self, name: &str, at: u64, into: &mut [u8]) -> Result<usize, Failed>
        ensures within { IfOk result (λ count. count ≤ length into.new) }
        ensures told { IsTrue (tells self.old) → IfOk result (λ count. (file : List ℕ) × (files self.old name.now ≡ Some file) × ReadsAt file at count into.new) }
        ensures absent { IsTrue (tells self.old) → files self.old name.now ≡ None → IsErr result }
        ensures cause { IsErr result → Rose (failed_reads self.old) (failed_reads self.new) ⊎ (IsTrue (tells self.old) × (files self.old name.now ≡ None)) }

        // What stays.
        ensures same_files { IsTrue (tells self.old) → files self.new ≡ files self.old }
        ensures same_tells { tells self.new ≡ tells self.old }
        ensures reads_stay { failed_reads self.old ≤ failed_reads self.new }
        ensures same_writes { failed_writes self.new ≡ failed_writes self.old };

    /// Makes the file `name` empty, also where it was absent.
    ///
    /// # Errors
    ///
    /// The file couldn't be made, and the count of failed writes rose. The told files are as before.
    fn start(&mut self, name: &str) -> Result<(), Failed>
        ensures told { IsTrue (tells self.old) → OnOk result (files self.new name.now ≡ Some []) }
        ensures cause { OnErr result (Rose (failed_writes self.old) (failed_writes self.new)) }

        // What stays.
        ensures others { IsTrue (tells self.old) → ChangesOnly name.now (files self.old) (files self.new) }
        ensures err { IsTrue (tells self.old) → OnErr result (files self.new ≡ files self.old) }
        ensures same_tells { tells self.new ≡ tells self.old }
        ensures writes_stay { failed_writes self.old ≤ failed_writes self.new }
        ensures same_reads { failed_reads self.new ≡ failed_reads self.old };

    /// Adds a front of `piece` at the end of the file `name`, and answers how many bytes that is. An absent name counts
    /// as an empty file.
    ///
    /// # Errors
    ///
    /// Nothing could be added, and the count of failed writes rose. The told files are as before.
    fn append(&mut self, name: &str, piece: &[u8]) -> Result<usize, Failed>
        ensures within { IfOk result (λ count. count ≤ length piece.now) }
        ensures told { IsTrue (tells self.old) → IfOk result (λ count. files self.new name.now ≡ Some (content (files self.old) name.now ++ take count piece.now)) }
        ensures cause { OnErr result (Rose (failed_writes self.old) (failed_writes self.new)) }

        // To take nothing of a piece that isn't empty counts as a failure.
        ensures nothing { IfOk result (λ count. count ≡ 0 → piece.now ≢ [] → Rose (failed_writes self.old) (failed_writes self.new)) }

        // What stays.
        ensures others { IsTrue (tells self.old) → ChangesOnly name.now (files self.old) (files self.new) }
        ensures err { IsTrue (tells self.old) → OnErr result (files self.new ≡ files self.old) }
        ensures same_tells { tells self.new ≡ tells self.old }
        ensures writes_stay { failed_writes self.old ≤ failed_writes self.new }
        ensures same_reads { failed_reads self.new ≡ failed_reads self.old };
}

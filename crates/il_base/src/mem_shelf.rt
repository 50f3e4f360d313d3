ghost use Rattle.std.specs.Prelude.{◌≡◌, ◌≢◌, ◌≤◌, ◌+◌, ◌-◌, ◌++◌, ◌∷◌, ◌⊎◌, ◌↔◌, ◌==◌, ◌&&◌, ◌||◌, not, min, ℕ, List, [], length, take, drop, true, false, if◌then◌else◌, is_err, None, Some, IsTrue, IsOk, IsErr, IfOk, OnOk, OnErr};
ghost use Rattle.std.specs.Option.{option_copied, option_map};
ghost use Rattle.il_base.specs.Calls.{one_more, next_call, fails_next, taken, readable};
ghost use Rattle.il_base.specs.Outside.{Rose, ReadsAt, ChangesOnly, content};

use crate::counts::raise;
use crate::plan::Plan;
use crate::stored::Stored;
use crate::stored_files::StoredFiles;
use crate::{Failed, NoMemory, Shelf};
use std::alloc::Global;

/// A shelf in memory, which tells its files.
///
/// Its calls are those of `Shelf`, counted from 1; a call past the last number of 64 bits has that number.
#[derive(Drop)]
pub struct MemShelf {
    alloc: Global,
    files: StoredFiles,
    plan: Plan,
    failed_reads: u64,
    failed_writes: u64,
}

impl MemShelf {
    ghost use Rattle.il_base.specs.Memory.{shelf_files, shelf_calls, shelf_failed_reads, shelf_failed_writes, HasRoom, ChangesFiles, ChangesCalls};

    /// A shelf without files, whose calls all succeed and take what they are given. Takes no memory.
    pub fn new(alloc: Global) -> MemShelf
        ensures files { shelf_files result ≡ λ _. None }
        ensures calls { shelf_calls result ≡ record { count = 0; failing = []; at_most = None } }
        ensures reads { shelf_failed_reads result ≡ 0 }
        ensures writes { shelf_failed_writes result ≡ 0 }
    {
        MemShelf {
            alloc,
            files: StoredFiles::new(alloc),
            plan: Plan::new(alloc),
            failed_reads: 0,
            failed_writes: 0,
        }
    }

    /// Puts a file with these bytes under `name`, in place of one that was there. It is no call of `Shelf`.
    ///
    /// # Errors
    ///
    /// There was no memory. The files are as before.
    pub fn put(&mut self, name: &str, bytes: &[u8]) -> Result<(), NoMemory>
        ensures ok { OnOk result (shelf_files self.new name.now ≡ Some bytes.now) }
        ensures err { OnErr result (shelf_files self.new ≡ shelf_files self.old) }
        ensures others { ChangesOnly name.now (shelf_files self.old) (shelf_files self.new) }
        ensures stays { ChangesFiles self.old self.new }
    {
        let room = self.room_of(name);
        let stored = Stored::with_room(self.alloc, bytes, room)?;
        self.files.put(name, stored)
    }

    /// Makes the file `name` empty. From then on `start` of it and each `append` that leaves it at most `count` bytes
    /// long take no memory. It is no call of `Shelf`.
    ///
    /// # Errors
    ///
    /// There was no memory. The files are as before.
    pub fn room(&mut self, name: &str, count: usize) -> Result<(), NoMemory>
        ensures ok { OnOk result (shelf_files self.new name.now ≡ Some []) }
        ensures room { OnOk result (HasRoom self.new name.now count) }
        ensures err { OnErr result (shelf_files self.new ≡ shelf_files self.old) }
        ensures others { ChangesOnly name.now (shelf_files self.old) (shelf_files self.new) }
        ensures stays { ChangesFiles self.old self.new }
    {
        let room = self.room_of(name).max(count);
        let stored = Stored::with_room(self.alloc, &[], room)?;
        self.files.put(name, stored)
    }

    /// The room of the file `name`, or 0 where it is absent.
    fn room_of(&self, name: &str) -> usize
        ensures { (count : ℕ) → HasRoom self.now name.now count → count ≤ result }
    {
        match self.files.get(name) {
            None => 0,
            Some(stored) => stored.room(),
        }
    }

    /// Lets the call with this number fail.
    ///
    /// # Errors
    ///
    /// There was no memory. The shelf is as before.
    pub fn fail_at(&mut self, call: u64) -> Result<(), NoMemory>
        ensures ok { OnOk result (shelf_calls self.new ≡ record (shelf_calls self.old) { failing = (shelf_calls self.old).failing ++ call ∷ [] }) }
        ensures err { OnErr result (shelf_calls self.new ≡ shelf_calls self.old) }
        ensures stays { ChangesCalls self.old self.new }
    {
        self.plan.fail_at(call)
    }

    /// Lets each call take at most `count` bytes. A read takes one byte where that is 0.
    pub fn at_most(&mut self, count: usize)
        ensures set { shelf_calls self.new ≡ record (shelf_calls self.old) { at_most = Some count } }
        ensures stays { ChangesCalls self.old self.new }
    {
        self.plan.at_most(count);
    }

    /// The bytes of the file `name`. None exactly where it is absent.
    pub fn file(&self, name: &str) -> Option<&[u8]>
        ensures { option_copied result ≡ shelf_files self.now name.now }
    {
        self.files.get(name).map(|stored| stored.as_slice())
    }

    /// The count of failed reads.
    pub fn failed_reads(&self) -> u64
        ensures { result ≡ shelf_failed_reads self.now }
    {
        self.failed_reads
    }

    /// The count of failed calls of `start` and `append`.
    pub fn failed_writes(&self) -> u64
        ensures { result ≡ shelf_failed_writes self.now }
    {
        self.failed_writes
    }
}

impl Shelf for MemShelf {
    ghost use Rattle.il_base.specs.Memory.{shelf_files, shelf_calls, shelf_failed_reads, shelf_failed_writes, HasRoom, KeepsRoom, ChangesFiles};

    ghost tells = { λ _. true };

    ghost files = { shelf_files };

    ghost failed_reads = { shelf_failed_reads };

    ghost failed_writes = { shelf_failed_writes };

    fn read(&mut self, name: &str, at: u64, into: &mut [u8]) -> Result<usize, Failed>
        ensures within { IfOk result (λ count. count ≤ length into.new) }
        ensures told { IfOk result (λ count. (file : List ℕ) × (shelf_files self.old name.now ≡ Some file) × ReadsAt file at count into.new) }
        ensures absent { shelf_files self.old name.now ≡ None → IsErr result }
        ensures cause { IsErr result → Rose (shelf_failed_reads self.old) (shelf_failed_reads self.new) ⊎ (shelf_files self.old name.now ≡ None) }
        ensures same_files { shelf_files self.new ≡ shelf_files self.old }
        ensures reads_stay { shelf_failed_reads self.old ≤ shelf_failed_reads self.new }
        ensures same_writes { shelf_failed_writes self.new ≡ shelf_failed_writes self.old }

        // Exactly, and calm without a failing number and with room.
        ensures fails { IsTrue (fails_next (shelf_calls self.old)) → IsErr result }
        ensures succeeds { fails_next (shelf_calls self.old) ≡ false → shelf_files self.old name.now ≢ None → IsOk result }
        ensures count { shelf_failed_reads self.new ≡ (if fails_next (shelf_calls self.old) then one_more (shelf_failed_reads self.old) else shelf_failed_reads self.old) }
        ensures calm { (shelf_calls self.old).failing ≡ [] → shelf_failed_reads self.new ≡ shelf_failed_reads self.old }
        ensures amount { IfOk result (λ count. count ≡ min (readable (shelf_calls self.old) (length into.old)) (length (content (shelf_files self.old) name.now) - at)) }
        ensures bytes { IfOk result (λ count. into.new ≡ take count (drop at (content (shelf_files self.old) name.now)) ++ drop count into.old) }
        ensures calls { shelf_calls self.new ≡ record (shelf_calls self.old) { count = next_call (shelf_calls self.old) } }
        ensures room { KeepsRoom self.old self.new }
    {
        if self.plan.next() {
            raise(&mut self.failed_reads);
            return Err(Failed);
        }
        match self.files.get(name) {
            None => Err(Failed),
            Some(stored) => {
                let most = self.plan.readable(into.len());
                Ok(copy_from(stored.as_slice(), at, most, into))
            }
        }
    }

    fn start(&mut self, name: &str) -> Result<(), Failed>
        ensures told { OnOk result (shelf_files self.new name.now ≡ Some []) }
        ensures cause { OnErr result (Rose (shelf_failed_writes self.old) (shelf_failed_writes self.new)) }
        ensures others { ChangesOnly name.now (shelf_files self.old) (shelf_files self.new) }
        ensures err { OnErr result (shelf_files self.new ≡ shelf_files self.old) }
        ensures writes_stay { shelf_failed_writes self.old ≤ shelf_failed_writes self.new }
        ensures same_reads { shelf_failed_reads self.new ≡ shelf_failed_reads self.old }

        // Exactly, and calm without a failing number and with room.
        ensures fails { IsTrue (fails_next (shelf_calls self.old)) → IsErr result }
        ensures succeeds { fails_next (shelf_calls self.old) ≡ false → HasRoom self.old name.now 0 → IsOk result }
        ensures count { shelf_failed_writes self.new ≡ (if is_err result then one_more (shelf_failed_writes self.old) else shelf_failed_writes self.old) }
        ensures calm { (shelf_calls self.old).failing ≡ [] → HasRoom self.old name.now 0 → shelf_failed_writes self.new ≡ shelf_failed_writes self.old }
        ensures calls { shelf_calls self.new ≡ record (shelf_calls self.old) { count = next_call (shelf_calls self.old) } }
        ensures room { KeepsRoom self.old self.new }
    {
        if self.plan.next() {
            raise(&mut self.failed_writes);
            return Err(Failed);
        }
        match self.files.start(name) {
            Ok(()) => Ok(()),
            Err(_) => {
                raise(&mut self.failed_writes);
                Err(Failed)
            }
        }
    }

    fn append(&mut self, name: &str, piece: &[u8]) -> Result<usize, Failed>
        ensures within { IfOk result (λ count. count ≤ length piece.now) }
        ensures told { IfOk result (λ count. shelf_files self.new name.now ≡ Some (content (shelf_files self.old) name.now ++ take count piece.now)) }
        ensures cause { OnErr result (Rose (shelf_failed_writes self.old) (shelf_failed_writes self.new)) }
        ensures nothing { IfOk result (λ count. count ≡ 0 → piece.now ≢ [] → Rose (shelf_failed_writes self.old) (shelf_failed_writes self.new)) }
        ensures others { ChangesOnly name.now (shelf_files self.old) (shelf_files self.new) }
        ensures err { OnErr result (shelf_files self.new ≡ shelf_files self.old) }
        ensures writes_stay { shelf_failed_writes self.old ≤ shelf_failed_writes self.new }
        ensures same_reads { shelf_failed_reads self.new ≡ shelf_failed_reads self.old }

        // Exactly, and calm without a failing number and with room.
        ensures fails { IsTrue (fails_next (shelf_calls self.old)) → IsErr result }
        ensures succeeds { fails_next (shelf_calls self.old) ≡ false
            → HasRoom self.old name.now (length (content (shelf_files self.old) name.now) + taken (shelf_calls self.old) (length piece.now)) → IsOk result }
        ensures calm { (shelf_calls self.old).failing ≡ [] → (shelf_calls self.old).at_most ≢ Some 0
            → HasRoom self.old name.now (length (content (shelf_files self.old) name.now) + length piece.now) → shelf_failed_writes self.new ≡ shelf_failed_writes self.old }
        ensures amount { IfOk result (λ count. count ≡ taken (shelf_calls self.old) (length piece.now)) }
        ensures count { shelf_failed_writes self.new ≡
            (if is_err result || (taken (shelf_calls self.old) (length piece.now) == 0 && not (length piece.now == 0)) then one_more (shelf_failed_writes self.old) else shelf_failed_writes self.old) }
        ensures calls { shelf_calls self.new ≡ record (shelf_calls self.old) { count = next_call (shelf_calls self.old) } }
        ensures room { KeepsRoom self.old self.new }
    {
        let count = self.plan.taken(piece.len());
        if self.plan.next() {
            raise(&mut self.failed_writes);
            return Err(Failed);
        }
        match self.files.append(name, &piece[..count]) {
            Ok(()) => {
                if count == 0 && !piece.is_empty() {
                    raise(&mut self.failed_writes);
                }
                Ok(count)
            }
            Err(_) => {
                raise(&mut self.failed_writes);
                Err(Failed)
            }
        }
    }
}

/// Copies at most `most` bytes of `file` from the place `at` on to the front of `into`, and answers how many.
fn copy_from(file: &[u8], at: u64, most: usize, into: &mut [u8]) -> usize
    requires { most ≤ length into.old }
    ensures count { result ≡ min most (length file.now - at) }
    ensures bytes { into.new ≡ take result (drop at file.now) ++ drop result into.old }
{
    let Some(rest) = file.get(at as usize..) else {
        return 0;
    };
    let count = most.min(rest.len());
    into[..count].copy_from_slice(&rest[..count]);
    count
}

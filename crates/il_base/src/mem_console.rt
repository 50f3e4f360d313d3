ghost use Rattle.std.specs.Prelude.{◌≡◌, ◌≢◌, ◌≤◌, ◌+◌, ◌++◌, ◌∷◌, ◌==◌, ◌&&◌, ◌||◌, not, min, max, ℕ, List, [], length, take, true, false, if◌then◌else◌, is_err, None, Some, IsTrue, IsOk, IsErr, IfOk, OnOk, OnErr};
ghost use Rattle.il_base.specs.Calls.{one_more, next_call, fails_next, taken};
ghost use Rattle.il_base.specs.Outside.{Rose};

use crate::counts::raise;
use crate::plan::Plan;
use crate::stored::Stored;
use crate::{Console, Failed, NoMemory};
use std::alloc::Global;

/// A console in memory, which tells what it took.
///
/// Its calls are those of `Console`, counted from 1; a call past the last number of 64 bits has that number.
#[derive(Drop)]
pub struct MemConsole {
    out: Stored,
    err: Stored,
    plan: Plan,
    failed: u64,
}

impl MemConsole {
    ghost use Rattle.il_base.specs.Memory.{console_out, console_err, console_calls, console_failed, console_room, ChangesConsoleCalls};

    /// A console that took nothing, whose calls all succeed and take what they are given. Takes no memory.
    pub fn new(alloc: Global) -> MemConsole
        ensures out { console_out result ≡ [] }
        ensures err { console_err result ≡ [] }
        ensures calls { console_calls result ≡ record { count = 0; failing = []; at_most = None } }
        ensures failed { console_failed result ≡ 0 }
    {
        MemConsole {
            out: Stored::new(alloc),
            err: Stored::new(alloc),
            plan: Plan::new(alloc),
            failed: 0,
        }
    }

    /// Lets the call with this number fail.
    ///
    /// # Errors
    ///
    /// There was no memory. The console is as before.
    pub fn fail_at(&mut self, call: u64) -> Result<(), NoMemory>
        ensures ok { OnOk result (console_calls self.new ≡ record (console_calls self.old) { failing = (console_calls self.old).failing ++ call ∷ [] }) }
        ensures err { OnErr result (console_calls self.new ≡ console_calls self.old) }
        ensures stays { ChangesConsoleCalls self.old self.new }
    {
        self.plan.fail_at(call)
    }

    /// Lets each call take at most `count` bytes.
    pub fn at_most(&mut self, count: usize)
        ensures set { console_calls self.new ≡ record (console_calls self.old) { at_most = Some count } }
        ensures stays { ChangesConsoleCalls self.old self.new }
    {
        self.plan.at_most(count);
    }

    /// From then on calls that leave `out_bytes` and `err_bytes` at most `count` bytes long each take no memory. It is no
    /// call of `Console`.
    ///
    /// # Errors
    ///
    /// There was no memory. What was taken is as before.
    pub fn room(&mut self, count: usize) -> Result<(), NoMemory>
        ensures ok { OnOk result (count ≤ console_room self.new) }
        ensures room { console_room self.old ≤ console_room self.new }
        ensures same_out { console_out self.new ≡ console_out self.old }
        ensures same_err { console_err self.new ≡ console_err self.old }
        ensures same_calls { console_calls self.new ≡ console_calls self.old }
        ensures same_failed { console_failed self.new ≡ console_failed self.old }
    {
        self.out.make_room(count)?;
        self.err.make_room(count)
    }

    /// The bytes that `out` took.
    pub fn out_bytes(&self) -> &[u8]
        ensures { result.now ≡ console_out self.now }
    {
        self.out.as_slice()
    }

    /// The bytes that `err` took.
    pub fn err_bytes(&self) -> &[u8]
        ensures { result.now ≡ console_err self.now }
    {
        self.err.as_slice()
    }

    /// The count of failed calls.
    pub fn failed(&self) -> u64
        ensures { result ≡ console_failed self.now }
    {
        self.failed
    }
}

impl Console for MemConsole {
    ghost use Rattle.il_base.specs.Memory.{console_out, console_err, console_calls, console_failed, console_room};

    ghost tells = { λ _. true };

    ghost out_taken = { console_out };

    ghost err_taken = { console_err };

    ghost failed = { console_failed };

    fn out(&mut self, piece: &[u8]) -> Result<usize, Failed>
        ensures within { IfOk result (λ count. count ≤ length piece.now) }
        ensures told { IfOk result (λ count. console_out self.new ≡ console_out self.old ++ take count piece.now) }
        ensures cause { OnErr result (Rose (console_failed self.old) (console_failed self.new)) }
        ensures nothing { IfOk result (λ count. count ≡ 0 → piece.now ≢ [] → Rose (console_failed self.old) (console_failed self.new)) }
        ensures err { OnErr result (console_out self.new ≡ console_out self.old) }
        ensures same_err { console_err self.new ≡ console_err self.old }
        ensures count_stays { console_failed self.old ≤ console_failed self.new }

        // Exactly, and calm without a failing number and with room.
        ensures fails { IsTrue (fails_next (console_calls self.old)) → IsErr result }
        ensures succeeds { fails_next (console_calls self.old) ≡ false
            → length (console_out self.old) + taken (console_calls self.old) (length piece.now) ≤ console_room self.old → IsOk result }
        ensures calm { (console_calls self.old).failing ≡ [] → (console_calls self.old).at_most ≢ Some 0
            → length (console_out self.old) + length piece.now ≤ console_room self.old → console_failed self.new ≡ console_failed self.old }
        ensures amount { IfOk result (λ count. count ≡ taken (console_calls self.old) (length piece.now)) }
        ensures count { console_failed self.new ≡
            (if is_err result || (taken (console_calls self.old) (length piece.now) == 0 && not (length piece.now == 0)) then one_more (console_failed self.old) else console_failed self.old) }
        ensures calls { console_calls self.new ≡ record (console_calls self.old) { count = next_call (console_calls self.old) } }
        ensures room { console_room self.new ≡ console_room self.old }
    {
        let fails = self.plan.next();
        let count = self.plan.taken(piece.len());
        take_front(&mut self.out, piece, count, fails, &mut self.failed)
    }

    fn err(&mut self, piece: &[u8]) -> Result<usize, Failed>
        ensures within { IfOk result (λ count. count ≤ length piece.now) }
        ensures told { IfOk result (λ count. console_err self.new ≡ console_err self.old ++ take count piece.now) }
        ensures cause { OnErr result (Rose (console_failed self.old) (console_failed self.new)) }
        ensures nothing { IfOk result (λ count. count ≡ 0 → piece.now ≢ [] → Rose (console_failed self.old) (console_failed self.new)) }
        ensures err { OnErr result (console_err self.new ≡ console_err self.old) }
        ensures same_out { console_out self.new ≡ console_out self.old }
        ensures count_stays { console_failed self.old ≤ console_failed self.new }

        // Exactly, and calm without a failing number and with room.
        ensures fails { IsTrue (fails_next (console_calls self.old)) → IsErr result }
        ensures succeeds { fails_next (console_calls self.old) ≡ false
            → length (console_err self.old) + taken (console_calls self.old) (length piece.now) ≤ console_room self.old → IsOk result }
        ensures calm { (console_calls self.old).failing ≡ [] → (console_calls self.old).at_most ≢ Some 0
            → length (console_err self.old) + length piece.now ≤ console_room self.old → console_failed self.new ≡ console_failed self.old }
        ensures amount { IfOk result (λ count. count ≡ taken (console_calls self.old) (length piece.now)) }
        ensures count { console_failed self.new ≡
            (if is_err result || (taken (console_calls self.old) (length piece.now) == 0 && not (length piece.now == 0)) then one_more (console_failed self.old) else console_failed self.old) }
        ensures calls { console_calls self.new ≡ record (console_calls self.old) { count = next_call (console_calls self.old) } }
        ensures room { console_room self.new ≡ console_room self.old }
    {
        let fails = self.plan.next();
        let count = self.plan.taken(piece.len());
        take_front(&mut self.err, piece, count, fails, &mut self.failed)
    }
}

/// Adds the first `count` bytes of `piece` to `bytes`, unless the call is to fail, and counts a failure.
fn take_front(
    bytes: &mut Stored,
    piece: &[u8],
    count: usize,
    fails: bool,
    failed: &mut u64,
) -> Result<usize, Failed>
    requires { count ≤ length piece.now }
    ensures ok { IfOk result (λ n. (n ≡ count) × (bytes.new ≡ record bytes.old { bytes = bytes.old.bytes ++ take count piece.now })) }
    ensures err { OnErr result (bytes.new ≡ bytes.old) }
    ensures fails { IsTrue fails → IsErr result }
    ensures succeeds { fails ≡ false → length bytes.old.bytes + count ≤ bytes.old.room → IsOk result }
    ensures count { failed.new ≡ (if is_err result || (count == 0 && not (length piece.now == 0)) then one_more failed.old else failed.old) }
    ensures stays { failed.old ≤ failed.new }
{
    if fails || bytes.append(&piece[..count]).is_err() {
        raise(failed);
        return Err(Failed);
    }
    if count == 0 && !piece.is_empty() {
        raise(failed);
    }
    Ok(count)
}

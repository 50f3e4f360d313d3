ghost use Rattle.std.specs.Prelude.{◌≡◌, ◌≢◌, ◌≤◌, [], false, length, IfOk, OnErr};
ghost use Rattle.il_base.specs.Outside.{Rose};

use crate::counts::raise;
use crate::{Console, Failed};

/// The standard streams of the system. It tells nothing of them, and counts each fault.
#[derive(Drop)]
pub struct StdConsole<O: Print, E: Print> {
    out: O,
    err: E,
    failed: u64,
}

impl<O: Print + Drop, E: Print + Drop> StdConsole<O, E> {
    /// A console over standard output and standard error.
    pub fn new(out: O, err: E) -> StdConsole<O, E> {
        StdConsole {
            out,
            err,
            failed: 0,
        }
    }
}

impl<O: Print + Drop, E: Print + Drop> Console for StdConsole<O, E> {
    ghost tells = { λ _. false };

    ghost out_taken = { λ _. [] };

    ghost err_taken = { λ _. [] };

    ghost failed = { λ c. c.failed };

    fn out(&mut self, piece: &[u8]) -> Result<usize, Failed> {
        write(&self.out, piece, &mut self.failed)
    }

    fn err(&mut self, piece: &[u8]) -> Result<usize, Failed> {
        write(&self.err, piece, &mut self.failed)
    }
}

/// Writes to a stream, and counts a fault.
fn write<P: Print>(to: &P, piece: &[u8], failed: &mut u64) -> Result<usize, Failed>
    ensures within { IfOk result (λ count. count ≤ length piece.now) }
    ensures cause { OnErr result (Rose failed.old failed.new) }
    ensures nothing { IfOk result (λ count. count ≡ 0 → piece.now ≢ [] → Rose failed.old failed.new) }
    ensures stays { failed.old ≤ failed.new }
{
    match to.write_some(piece) {
        Ok(count) => {
            if count == 0 && !piece.is_empty() {
                raise(failed);
            }
            Ok(count)
        }
        Err(_) => {
            raise(failed);
            Err(Failed)
        }
    }
}

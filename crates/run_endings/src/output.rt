//! Writing a whole file to a shelf, and a whole text to a console. No call here takes memory.
ghost use Rattle.std.specs.Prelude.{◌≡◌, ◌≢◌, ℕ, ◌≤◌, ◌⊎◌, ◌++◌, List, Some, [], take, IsTrue, OnOk, OnErr};
ghost use Rattle.il_base.specs.Outside.{Rose, ChangesOnly};
ghost use Rattle.run_endings.specs.Ends.{HoldsFront};

use il_base::{Console, Failed, Shelf};

/// Makes the file `name` hold these bytes.
///
/// # Errors
///
/// A write failed. The file holds a front of the bytes then, or wasn't started.
pub(crate) fn write_file<S: Shelf>(shelf: &mut S, name: &str, bytes: &[u8]) -> Result<(), Failed>
    ensures told { IsTrue (S.tells shelf.old) → OnOk result (S.files shelf.new name.now ≡ Some bytes.now) }
    ensures cause { OnErr result (Rose (S.failed_writes shelf.old) (S.failed_writes shelf.new)) }
    ensures front { IsTrue (S.tells shelf.old) → OnErr result ((S.files shelf.new ≡ S.files shelf.old) ⊎ HoldsFront (S.files shelf.new) name.now bytes.now) }

    // What stays.
    ensures others { IsTrue (S.tells shelf.old) → ChangesOnly name.now (S.files shelf.old) (S.files shelf.new) }
    ensures same_tells { S.tells shelf.new ≡ S.tells shelf.old }
    ensures writes_stay { S.failed_writes shelf.old ≤ S.failed_writes shelf.new }
    ensures same_reads { S.failed_reads shelf.new ≡ S.failed_reads shelf.old }
{
    shelf.start(name)?;
    append_all(shelf, name, bytes)
}

// Adds these bytes to the file `name`, which is there and empty.
fn append_all<S: Shelf>(shelf: &mut S, name: &str, bytes: &[u8]) -> Result<(), Failed>
    requires { IsTrue (S.tells shelf.old) → S.files shelf.old name.now ≡ Some [] }
    ensures told { IsTrue (S.tells shelf.old) → OnOk result (S.files shelf.new name.now ≡ Some bytes.now) }
    ensures cause { OnErr result (Rose (S.failed_writes shelf.old) (S.failed_writes shelf.new)) }
    ensures front { IsTrue (S.tells shelf.old) → HoldsFront (S.files shelf.new) name.now bytes.now }

    // What stays.
    ensures others { IsTrue (S.tells shelf.old) → ChangesOnly name.now (S.files shelf.old) (S.files shelf.new) }
    ensures same_tells { S.tells shelf.new ≡ S.tells shelf.old }
    ensures writes_stay { S.failed_writes shelf.old ≤ S.failed_writes shelf.new }
    ensures same_reads { S.failed_reads shelf.new ≡ S.failed_reads shelf.old }
{
    let mut done = 0;
    while done < bytes.len() {
        let (_, rest) = bytes.split_at(done);
        let count = shelf.append(name, rest)?;
        if count == 0 {
            return Err(Failed);
        }
        done += count;
    }
    Ok(())
}

/// Writes a text to standard output.
///
/// # Errors
///
/// A call failed. The console took a front of the text then.
pub(crate) fn write_out<C: Console>(console: &mut C, text: &[u8]) -> Result<(), Failed>
    ensures told { IsTrue (C.tells console.old) → OnOk result (C.out_taken console.new ≡ C.out_taken console.old ++ text.now) }
    ensures cause { OnErr result (Rose (C.failed console.old) (C.failed console.new)) }
    ensures some { OnErr result (text.now ≢ []) }
    ensures front { IsTrue (C.tells console.old) → (count : ℕ) × (C.out_taken console.new ≡ C.out_taken console.old ++ take count text.now) }

    // What stays.
    ensures same_err { IsTrue (C.tells console.old) → C.err_taken console.new ≡ C.err_taken console.old }
    ensures same_tells { C.tells console.new ≡ C.tells console.old }
    ensures count_stays { C.failed console.old ≤ C.failed console.new }
{
    let mut done = 0;
    while done < text.len() {
        let (_, rest) = text.split_at(done);
        let count = console.out(rest)?;
        if count == 0 {
            return Err(Failed);
        }
        done += count;
    }
    Ok(())
}

/// Writes a text to standard error.
///
/// # Errors
///
/// A call failed. The console took a front of the text then.
pub(crate) fn write_error<C: Console>(console: &mut C, text: &[u8]) -> Result<(), Failed>
    ensures told { IsTrue (C.tells console.old) → OnOk result (C.err_taken console.new ≡ C.err_taken console.old ++ text.now) }
    ensures cause { OnErr result (Rose (C.failed console.old) (C.failed console.new)) }
    ensures some { OnErr result (text.now ≢ []) }
    ensures front { IsTrue (C.tells console.old) → (count : ℕ) × (C.err_taken console.new ≡ C.err_taken console.old ++ take count text.now) }

    // What stays.
    ensures same_out { IsTrue (C.tells console.old) → C.out_taken console.new ≡ C.out_taken console.old }
    ensures same_tells { C.tells console.new ≡ C.tells console.old }
    ensures count_stays { C.failed console.old ≤ C.failed console.new }
{
    let mut done = 0;
    while done < text.len() {
        let (_, rest) = text.split_at(done);
        let count = console.err(rest)?;
        if count == 0 {
            return Err(Failed);
        }
        done += count;
    }
    Ok(())
}

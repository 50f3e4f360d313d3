//! `iltool`: tools for .NET's intermediate language. The words after the program's name, the real files and the
//! real streams go to `il_tools::run_and_keep`; `--help` and `--version`, alone, and `--help` alone behind a command are
//! answered here.
#![tactic(auto)]

use il_base::{DiskShelf, NoMemory, StdConsole, Text, Words};
use il_tools::{KeptTree, run_and_keep};
use std::process::ExitCode;
use std::rt::Env;
use std::{env, io, mem};
use thiserror::Error;

const HELP: &str = "\
iltool: tools for .NET's intermediate language

  iltool ilasm FILE [-dll or -exe] [-output=NAME] [-optimize]
                            assembles FILE to a program, or with -dll to a library
  iltool COMMAND --help     prints what a command does
  iltool --help             prints this text
  iltool --version          prints the version

Status: 0 done, 1 fault in the input, 2 usage fault, 3 a file cannot be read, 4 the output cannot be
written, 5 a file is too long, 6 no memory.
";

const ILASM_HELP: &str = "\
iltool ilasm FILE [-dll or -exe] [-output=NAME] [-optimize]

Assembles the source FILE, in the language of ECMA-335, to a PE32 image. Options stand before or
behind FILE, each at most once.

  -exe            the image is a program (so it is where nothing is said)
  -dll            the image is a library
  -output=NAME    the image is named NAME, or else as FILE with .exe or .dll in place of .il
  -optimize       each branch is short where it can be, whatever form the source gives it

Status, and what is said on standard error:
  0   the image is written; nothing is said
  1   FILE(LINE): error RULE: TEXT                  the first fault of the source
      FILE: error Z1: the assembly is too large
  2   usage fault at word K                         the first word that doesn't fit
  3   FILE: cannot be read
  4   the image or a message cannot be written; the image holds a front of its bytes, or wasn't begun
  5   FILE: longer than 134217728 bytes
  6   there is no memory
After 1, 2, 3, 5 and 6 no file has changed.

  iltool ilasm examples/hello.il
  iltool ilasm -dll src/lib.il -output=build/Lib.dll
";

const VERSION: &str = "iltool 0.1.0\n";

/// Why there are no words to hand on.
#[derive(Debug, Drop, Error)]
enum WordsFault {
    /// There was no memory for them.
    #[error("no memory")]
    NoMemory,
    /// One of them isn't UTF-8, or the system didn't tell them.
    #[error("usage fault: a word isn't UTF-8")]
    NotText,
}

impl From<NoMemory> for WordsFault {
    fn from(_fault: NoMemory) -> WordsFault {
        WordsFault::NoMemory
    }
}

fn main(rt: HostRuntime) -> ExitCode {
    let status = match words(&rt) {
        Ok(words) => answer(&rt, &words),
        Err(WordsFault::NoMemory) => 6,
        Err(WordsFault::NotText) => {
            let _ = rt.eprintln(WordsFault::NotText);
            2
        }
    };
    ExitCode::from(status)
}

/// The words after the program's name.
fn words(rt: &(impl Env + AllocGlobal)) -> Result<Words, WordsFault> {
    let all = match env::args(rt) {
        Ok(all) => all,
        Err(error) => {
            return Err(match error.kind() {
                io::ErrorKind::OutOfMemory => WordsFault::NoMemory,
                _ => WordsFault::NotText,
            });
        }
    };
    let mut words = Words::new(rt.alloc());
    for word in all.skip(1) {
        words.push(Text::new(rt.alloc(), word.as_str())?)?;
    }
    Ok(words)
}

/// The status with which the program ends.
fn answer(rt: &HostRuntime, words: &Words) -> u8 {
    match words.as_slice() {
        [word] if word.as_str() == "--help" => printed(rt, HELP),
        [word] if word.as_str() == "--version" => printed(rt, VERSION),
        [command, word] if command.as_str() == "ilasm" && word.as_str() == "--help" => {
            printed(rt, ILASM_HELP)
        }
        _ => {
            let mut shelf = DiskShelf::new(rt, rt.alloc());
            let mut console = StdConsole::new(rt.stdout(), rt.stderr());
            let mut kept = KeptTree::new();
            let status = run_and_keep(rt.alloc(), words, &mut shelf, &mut console, &mut kept);
            // The process ends now, which gives all its memory back at once.
            mem::forget(kept);
            status.number
        }
    }
}

/// Prints a text: 0 where it could be written, else 4.
fn printed(rt: &impl Print, text: &str) -> u8 {
    match rt.print(text) {
        Ok(()) => 0,
        Err(_) => 4,
    }
}

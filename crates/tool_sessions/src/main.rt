//! What the program says and leaves, run after run: `tool_sessions NAME..` plays the scripts that its words name, over shelves
//! and consoles in memory, and prints what comes. A script's lines:
//!
//! | Line | What it does |
//! |---|---|
//! | `file NAME` | begins a file; one of that name that was there is gone |
//! | the mark of a bar, then TEXT | adds TEXT and a line feed to the file |
//! | `+TEXT`, `times N TEXT`, `blanks N`, `hex BYTES` | adds TEXT, TEXT or blanks so many times, or bytes |
//! | `watch NAME..` | which files are looked at after a run |
//! | `run WORDS` | runs the program over the files (`''` is an empty word): the status with the watched files that it made or changed, and what it said |
//! | `holds BYTES WORDS` | runs the program, and prints how often the first watched file that it made or changed has the bytes |
//! | `short N WORDS` | the same where each call takes at most N bytes |
//! | `shelf N WORDS` | the first, second, .. call of the shelf fails, each call taking at most N bytes, until a run ends without a failure |
//! | `console N WORDS` | the same for calls of the console |
//! | `#`, an empty line | is printed |
//!
//! Every run begins with the files of the script, whatever the runs before it wrote. The status is 0 where all could be played and
//! printed, 2 where a word or a line has no meaning, 3 where a script couldn't be read, 4 where the output couldn't be written, and
//! 6 where there was no memory.
#![tactic(auto)]

mod fault;
mod files;
mod outcome;
mod playing;
mod stores;
mod sweeps;

use crate::fault::SessionFault;
use crate::files::read_script;
use crate::playing::play;
use std::env;
use std::process::ExitCode;

fn main(rt: HostRuntime) -> ExitCode {
    let status = match play_all(&rt) {
        Ok(()) => 0,
        Err(fault) => fault.status(),
    };
    ExitCode::from(status)
}

/// Plays the scripts that the words after the program's name name.
fn play_all(rt: &HostRuntime) -> Result<(), SessionFault> {
    let Ok(words) = env::args(rt) else {
        return Err(SessionFault::Meaningless);
    };
    for word in words.skip(1) {
        let script = read_script(rt, word.as_str())?;
        let Ok(script) = str::from_utf8(script.as_slice()) else {
            return Err(SessionFault::Meaningless);
        };
        play(rt, script)?;
    }
    Ok(())
}

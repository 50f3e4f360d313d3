//! What the program does: `run` takes the words of a command line, a shelf of files and a console.
//!
//! A run reads all its inputs, makes in memory all that it will say and write, and then only writes. A command is one arm of
//! `inputs_of` and of `plan`; `specs/Commands.antt` says what it reads and gives.
#![tactic(auto)]

mod assembling;
mod fault;
mod kept;
mod planning;
mod texts;
mod top;

pub use command_words::{Command, WordFault, parse_words};
pub use kept::KeptTree;
pub use made_sources::make_source;
pub use top::{Status, run, run_and_keep};

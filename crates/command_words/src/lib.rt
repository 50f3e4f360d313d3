//! The words of a command line, as what is to be done.
//!
//! A table says how often each kind of word stands behind a command (`shape`); a word fits where the words before it leave
//! room for one more of its kind.
#![tactic(auto)]

mod asked;
mod command;
mod fault;
mod fitting;
mod parsing;
mod shape;
mod slot;

pub use command::Command;
pub use fault::WordFault;
pub use parsing::parse_words;

//! Why lines aren't answered.

use il_base::NoMemory;
use std::alloc::AllocError;
use thiserror::Error;

/// Why the program ends early.
#[derive(Debug, Clone, Copy, PartialEq, Eq, Drop, Error)]
pub enum Fault {
    /// A word or a line of a file has no meaning.
    #[error("a word or a line without a meaning")]
    Meaningless,
    /// A file can't be read.
    #[error("cannot be read")]
    Unread,
    /// The answers can't be written.
    #[error("cannot be written")]
    Unwritten,
    /// There was no memory.
    #[error("no memory")]
    NoMemory,
}

impl Fault {
    /// The status with which the program ends.
    pub fn status(self) -> u8 {
        match self {
            Fault::Meaningless => 2,
            Fault::Unread => 3,
            Fault::Unwritten => 4,
            Fault::NoMemory => 6,
        }
    }
}

impl From<NoMemory> for Fault {
    fn from(_fault: NoMemory) -> Fault {
        Fault::NoMemory
    }
}

impl From<AllocError> for Fault {
    fn from(_fault: AllocError) -> Fault {
        Fault::NoMemory
    }
}

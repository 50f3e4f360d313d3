//! Why a word isn't answered.

use il_lists::NoMemory;
use std::alloc::AllocError;
use std::io;
use thiserror::Error;

/// Why a word isn't answered.
#[derive(Debug, Clone, Copy, Drop, Error)]
pub enum Fault {
    /// The word doesn't fit.
    #[error("usage fault")]
    Word,
    /// The answers can't be written.
    #[error("cannot be written")]
    Unwritten,
    /// There was no memory.
    #[error("no memory")]
    NoMemory,
}

impl Fault {
    /// The status with which the program ends.
    pub fn status(self) -> u8 {
        match self {
            Fault::Word => 2,
            Fault::Unwritten => 4,
            Fault::NoMemory => 6,
        }
    }
}

impl From<NoMemory> for Fault {
    fn from(_fault: NoMemory) -> Fault {
        Fault::NoMemory
    }
}

impl From<AllocError> for Fault {
    fn from(_fault: AllocError) -> Fault {
        Fault::NoMemory
    }
}

impl From<io::Error> for Fault {
    fn from(_fault: io::Error) -> Fault {
        Fault::Unwritten
    }
}

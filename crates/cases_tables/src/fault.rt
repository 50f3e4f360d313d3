//! Why a file isn't answered.

use il_base::NoMemory;
use std::alloc::AllocError;
use std::io;
use thiserror::Error;

/// Why a file isn't answered.
#[derive(Debug, Clone, Copy, Drop, Error)]
pub enum Fault {
    /// A line doesn't fit.
    #[error("a line doesn't fit")]
    Line,
    /// A file can't be read.
    #[error("cannot be read")]
    Unread,
    /// The answers can't be written.
    #[error("cannot be written")]
    Unwritten,
    /// There was no memory.
    #[error("no memory")]
    NoMemory,
}

impl Fault {
    /// The status with which the program ends.
    pub fn status(self) -> u8 {
        match self {
            Fault::Line => 2,
            Fault::Unread => 3,
            Fault::Unwritten => 4,
            Fault::NoMemory => 6,
        }
    }
}

impl From<NoMemory> for Fault {
    fn from(_fault: NoMemory) -> Fault {
        Fault::NoMemory
    }
}

impl From<AllocError> for Fault {
    fn from(_fault: AllocError) -> Fault {
        Fault::NoMemory
    }
}

impl From<io::Error> for Fault {
    fn from(_fault: io::Error) -> Fault {
        Fault::Unwritten
    }
}

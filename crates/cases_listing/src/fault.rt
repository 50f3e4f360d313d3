//! Why files weren't read, or what they say not printed.

use il_base::NoMemory;
use std::alloc::AllocError;
use thiserror::Error;

/// Why the program ends early.
#[derive(Debug, Clone, Copy, PartialEq, Eq, Drop, Error)]
pub enum VectorFault {
    /// A word or a row of a file has no meaning.
    #[error("a word or a row without a meaning")]
    Meaningless,
    /// A file can't be read, or a source is too long.
    #[error("cannot be read")]
    Unread,
    /// The output can't be written.
    #[error("cannot be written")]
    Unwritten,
    /// There was no memory.
    #[error("no memory")]
    NoMemory,
}

impl VectorFault {
    /// The status with which the program ends.
    pub fn status(self) -> u8 {
        match self {
            VectorFault::Meaningless => 2,
            VectorFault::Unread => 3,
            VectorFault::Unwritten => 4,
            VectorFault::NoMemory => 6,
        }
    }
}

impl From<NoMemory> for VectorFault {
    fn from(_fault: NoMemory) -> VectorFault {
        VectorFault::NoMemory
    }
}

impl From<AllocError> for VectorFault {
    fn from(_fault: AllocError) -> VectorFault {
        VectorFault::NoMemory
    }
}

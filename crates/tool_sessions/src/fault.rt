//! Why a script wasn't played to its end.

use il_base::NoMemory;
use std::alloc::AllocError;
use thiserror::Error;

/// Why the program ends early.
#[derive(Debug, Clone, Copy, PartialEq, Eq, Drop, Error)]
pub enum SessionFault {
    /// A word or a line of a script has no meaning.
    #[error("a word or a line without a meaning")]
    Meaningless,
    /// A script can't be read, or is too long.
    #[error("cannot be read")]
    Unread,
    /// The output can't be written.
    #[error("cannot be written")]
    Unwritten,
    /// There was no memory.
    #[error("no memory")]
    NoMemory,
}

impl SessionFault {
    /// The status with which the program ends.
    pub fn status(self) -> u8 {
        match self {
            SessionFault::Meaningless => 2,
            SessionFault::Unread => 3,
            SessionFault::Unwritten => 4,
            SessionFault::NoMemory => 6,
        }
    }
}

impl From<NoMemory> for SessionFault {
    fn from(_fault: NoMemory) -> SessionFault {
        SessionFault::NoMemory
    }
}

impl From<AllocError> for SessionFault {
    fn from(_fault: AllocError) -> SessionFault {
        SessionFault::NoMemory
    }
}

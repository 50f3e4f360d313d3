//! Why a file isn't answered.

use il_base::NoMemory;
use image_writer::WriteFault;
use source_assembly::ReadFault;
use std::alloc::AllocError;
use std::io;
use thiserror::Error;

/// Why a file isn't answered.
#[derive(Debug, Clone, Copy, Drop, Error)]
pub enum Fault {
    /// A source has a fault, or its assembly no image.
    #[error("a source gives no image")]
    Source,
    /// A line doesn't fit.
    #[error("a line doesn't fit")]
    Line,
    /// A file can't be read.
    #[error("cannot be read")]
    Unread,
    /// The answers can't be written.
    #[error("cannot be written")]
    Unwritten,
    /// There was no memory.
    #[error("no memory")]
    NoMemory,
}

impl Fault {
    /// The status with which the program ends.
    pub fn status(self) -> u8 {
        match self {
            Fault::Source => 1,
            Fault::Line => 2,
            Fault::Unread => 3,
            Fault::Unwritten => 4,
            Fault::NoMemory => 6,
        }
    }
}

impl From<NoMemory> for Fault {
    fn from(_fault: NoMemory) -> Fault {
        Fault::NoMemory
    }
}

impl From<AllocError> for Fault {
    fn from(_fault: AllocError) -> Fault {
        Fault::NoMemory
    }
}

impl From<io::Error> for Fault {
    fn from(_fault: io::Error) -> Fault {
        Fault::Unwritten
    }
}

impl From<ReadFault> for Fault {
    fn from(fault: ReadFault) -> Fault {
        match fault {
            ReadFault::Faulty(_) => Fault::Source,
            ReadFault::NoMemory => Fault::NoMemory,
        }
    }
}

impl From<WriteFault> for Fault {
    fn from(fault: WriteFault) -> Fault {
        match fault {
            WriteFault::NoMemory => Fault::NoMemory,
            _ => Fault::Source,
        }
    }
}

//! Why a source wasn't checked as far as was asked for.

use assignability::WorldFault;
use il_base::NoMemory;
use source_assembly::ReadFault;
use std::io;
use thiserror::Error;

/// Why a source wasn't checked as far as a stage.
#[derive(Debug, Clone, Copy, Drop, Error)]
pub enum Fault {
    /// The source has a fault, it or its assembly is too large, or a type is its own ancestor.
    #[error("a fault in the source")]
    Faulty,
    /// The file can't be read.
    #[error("cannot be read")]
    Unread,
    /// The number can't be written.
    #[error("cannot be written")]
    Unwritten,
    /// There was no memory.
    #[error("no memory")]
    NoMemory,
}

impl Fault {
    /// The status with which the program ends.
    pub fn status(self) -> u8 {
        match self {
            Fault::Faulty => 1,
            Fault::Unread => 3,
            Fault::Unwritten => 4,
            Fault::NoMemory => 6,
        }
    }
}

impl From<NoMemory> for Fault {
    fn from(_fault: NoMemory) -> Fault {
        Fault::NoMemory
    }
}

impl From<io::Error> for Fault {
    fn from(_fault: io::Error) -> Fault {
        Fault::Unwritten
    }
}

impl From<ReadFault> for Fault {
    fn from(fault: ReadFault) -> Fault {
        match fault {
            ReadFault::NoMemory => Fault::NoMemory,
            ReadFault::Faulty(_) => Fault::Faulty,
        }
    }
}

impl From<WorldFault> for Fault {
    fn from(fault: WorldFault) -> Fault {
        match fault {
            WorldFault::Cyclic { .. } => Fault::Faulty,
            WorldFault::NoMemory => Fault::NoMemory,
        }
    }
}

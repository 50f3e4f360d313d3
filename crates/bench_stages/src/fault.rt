//! Why a source wasn't read as far as was asked for.

use elaborate::NameFault;
use il_base::NoMemory;
use il_lexer::LexFault;
use ilasm_grammar::SyntaxFault;
use thiserror::Error;

/// Why a source wasn't read as far as a stage.
#[derive(Debug, Clone, Copy, PartialEq, Eq, Drop, Error)]
pub enum StageFault {
    /// The source has a fault.
    #[error("a fault in the source")]
    Faulty,
    /// The file can't be read, or is too long.
    #[error("cannot be read")]
    Unread,
    /// There was no memory.
    #[error("no memory")]
    NoMemory,
}

impl From<NoMemory> for StageFault {
    fn from(_fault: NoMemory) -> StageFault {
        StageFault::NoMemory
    }
}

impl From<LexFault> for StageFault {
    fn from(fault: LexFault) -> StageFault {
        match fault {
            LexFault::Bad { .. } => StageFault::Faulty,
            LexFault::NoMemory => StageFault::NoMemory,
        }
    }
}

impl From<SyntaxFault> for StageFault {
    fn from(fault: SyntaxFault) -> StageFault {
        match fault {
            SyntaxFault::Bad { .. } => StageFault::Faulty,
            SyntaxFault::NoMemory => StageFault::NoMemory,
        }
    }
}

impl From<NameFault> for StageFault {
    fn from(fault: NameFault) -> StageFault {
        match fault {
            NameFault::Bad { .. } => StageFault::Faulty,
            NameFault::NoMemory => StageFault::NoMemory,
        }
    }
}

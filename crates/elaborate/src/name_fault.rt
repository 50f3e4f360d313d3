//! Why a source that has a derivation denotes no assembly.

ghost use Rattle.std.specs.Prelude.{◌≡◌};
ghost use Rattle.elaborate.specs.declared.name_fault.NameFault.TheVariants.{NoMemory};

use il_base::Pos;
use source_model::NameClass;
use thiserror::Error;

/// Why a source that has a derivation denotes no assembly.
#[derive(Debug, Drop, Error)]
pub enum NameFault {
    /// It breaks a rule; this is the first that it breaks. Class D is asked before N and N before B.
    #[error("a declaration or a name breaks a rule")]
    Bad {
        /// Where the token at fault stands, or the source's end.
        pos: Pos,
        /// Whether something is declared twice, isn't declared, or is out of its bounds.
        class: NameClass,
        /// The rule's number in its class, from 1.
        rule: u8,
    },
    /// There was no memory.
    #[error("no memory")]
    NoMemory,
}

impl From<il_base::NoMemory> for NameFault {
    ghost from_gives = { λ _ e. e ≡ NoMemory };

    fn from(_error: il_base::NoMemory) -> NameFault {
        NameFault::NoMemory
    }
}

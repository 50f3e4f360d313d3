ghost use Rattle.std.specs.Prelude.{◌≡◌};

use il_base::NoMemory;
use source_model::NameClass;
use thiserror::Error;

/// The first fault of a source, with its line, counted from 1.
#[derive(Debug, Clone, Copy, PartialEq, Eq, Drop, Error)]
pub enum SourceFault {
    /// A lexical rule is broken: L1 to L7, by its number.
    #[error("a lexical rule is broken")]
    Lexical {
        /// The line of the place at fault.
        line: u32,
        /// 1 to 7.
        rule: u8,
    },
    /// The tokens aren't a source: S1, or S2 where the token is a word that is left out of the language.
    #[error("no declaration goes on with this token")]
    Syntax {
        /// The line of the token at fault, or of the source's end.
        line: u32,
        /// 1 or 2.
        rule: u8,
    },
    /// A rule on declarations, names or bounds is broken: D1 to D7, N1 to N8 or B1 to B8.
    #[error("a rule on declarations, names or bounds is broken")]
    Named {
        /// The line of the token at fault, or of the source's end.
        line: u32,
        /// The class of the rule.
        class: NameClass,
        /// Its number in the class.
        rule: u8,
    },
}

/// Why a source gives no assembly.
#[derive(Debug, Clone, Copy, PartialEq, Eq, Drop, Error)]
pub enum ReadFault {
    /// It has a fault; this is the first.
    #[error("the source has a fault")]
    Faulty(SourceFault),
    /// There was no memory for its tokens, its derivation or the assembly.
    #[error("no memory")]
    NoMemory,
}

impl From<NoMemory> for ReadFault {
    ghost use Rattle.source_assembly.specs.declared.fault.ReadFault.TheVariants.{NoMemory as Lacking};

    ghost from_gives = { λ _ fault. fault ≡ Lacking };

    fn from(_fault: NoMemory) -> ReadFault {
        ReadFault::NoMemory
    }
}

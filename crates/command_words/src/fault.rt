ghost use Rattle.std.specs.Prelude.{◌≡◌};

use il_base::NoMemory;
use thiserror::Error;

/// Why words are no command.
#[derive(Debug, Clone, Copy, PartialEq, Eq, Drop, Error)]
pub enum WordFault {
    /// The first word that doesn't fit, counted from 1, or the number of words plus one where a word is missing.
    #[error("usage fault at word {word}")]
    At {
        /// Its number.
        word: u32,
    },
    /// There was no memory for the texts.
    #[error("no memory")]
    NoMemory,
}

impl From<NoMemory> for WordFault {
    ghost use Rattle.command_words.specs.declared.fault.WordFault.TheVariants.{NoMemory as Lacking};

    ghost from_gives = { λ _ fault. fault ≡ Lacking };

    fn from(_fault: NoMemory) -> WordFault {
        WordFault::NoMemory
    }
}

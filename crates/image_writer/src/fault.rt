//! Why an assembly has no image.

ghost use Rattle.std.specs.Prelude.{◌≡◌};
ghost use Rattle.image_writer.specs.declared.fault.WriteFault.TheVariants.{NoMemory};

use thiserror::Error;

/// Why an assembly has no image.
#[derive(Debug, Drop, Error)]
pub enum WriteFault {
    /// It weighs more than 2^26.
    #[error("the assembly is too large")]
    TooLarge {
        /// Its weight; 2^63 where it is that or more.
        weight: u64,
    },
    /// The texts that it loads take more than 2^24 bytes of the heap of user strings, so that no token has room for the
    /// indexes of all (ECMA-335 III.1.9).
    #[error("the assembly is too large")]
    StringsFull {
        /// How many bytes they take.
        room: u64,
    },
    /// There was no memory.
    #[error("no memory")]
    NoMemory,
}

impl From<il_base::NoMemory> for WriteFault {
    ghost from_gives = { λ _ e. e ≡ NoMemory };

    fn from(_error: il_base::NoMemory) -> WriteFault {
        WriteFault::NoMemory
    }
}

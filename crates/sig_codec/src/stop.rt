ghost use Rattle.std.specs.Prelude.{◌≡◌};
ghost use Rattle.sig_codec.specs.declared.stop.Stop.TheVariants.{Memory};

use il_base::NoMemory;

/// Why a decoder stops.
#[derive(Debug, Clone, Copy, PartialEq, Eq)]
pub(crate) enum Stop {
    /// There is no memory for the value.
    Memory,
    /// The bytes are no spelling of a value within the bounds.
    Unspelled,
}

impl From<NoMemory> for Stop {
    ghost from_gives = { λ _ e. e ≡ Memory };

    fn from(_error: NoMemory) -> Stop {
        Stop::Memory
    }
}

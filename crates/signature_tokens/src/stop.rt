ghost use Rattle.std.specs.Prelude.{◌≡◌};
ghost use Rattle.signature_tokens.specs.declared.stop.Stop.TheVariants.{Memory};

use il_base::NoMemory;

/// Why a walk stops.
#[derive(Clone, Copy)]
pub(crate) enum Stop {
    /// There is no memory for a token.
    Memory,
    /// The bytes are no signature.
    Unspelled,
}

impl From<NoMemory> for Stop {
    ghost from_gives = { λ _ e. e ≡ Memory };

    fn from(_error: NoMemory) -> Stop {
        Stop::Memory
    }
}

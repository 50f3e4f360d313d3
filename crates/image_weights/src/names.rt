ghost use Rattle.std.specs.Prelude.{◌≡◌, ◌-◌};
ghost use Rattle.image_weights.specs.RowWeights.{named, owner};

use metadata_tables::{Coded, unpack_coded};
use told_weights::RowWeights;

/// Takes off the weight of the type that a TypeDefOrRef index names.
#[tactic(auto, unfolding(crate::specs::RowWeights::named))]
pub(crate) fn charge_owner<W: RowWeights>(weights: &W, value: u32, left: u64) -> u64
    ensures { result ≡ left - owner (W.told weights.now) value }
{
    match unpack_coded(Coded::TypeDefOrRef, value) {
        Some(at) => left.saturating_sub(weights.owner(at.0, at.1)),
        None => left,
    }
}

/// Takes off the weight of the method that a coded index names.
#[tactic(auto, unfolding(crate::specs::RowWeights::named))]
pub(crate) fn charge_method<W: RowWeights>(weights: &W, kind: Coded, value: u32, left: u64) -> u64
    ensures { result ≡ left - named (W.told weights.now).method kind value }
{
    match unpack_coded(kind, value) {
        Some(at) => left.saturating_sub(weights.method(at.0, at.1)),
        None => left,
    }
}

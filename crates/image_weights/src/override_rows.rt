ghost use Rattle.std.specs.Prelude.{◌≡◌, ◌-◌, sum_by};
ghost use Rattle.image_methods.specs.Overriders.{AreOverriders};
ghost use Rattle.image_model.specs.Reading.{overrides_of};
ghost use Rattle.image_model.specs.Rows.{HasRow};
ghost use Rattle.image_weights.specs.RowWeights.{override_row};

use crate::WeightSource;
use crate::names::charge_method;
use metadata_tables::Coded;
use row_chains::Chains;
use told_weights::RowWeights;

/// Takes off the weights of what a method overrides (II.22.27).
pub(crate) fn charge_overrides<W: RowWeights>(
    source: &WeightSource<'_, '_, W>,
    chains: &Chains<'_>,
    row: u32,
    left: u64,
) -> u64
    requires { AreOverriders source.now.image.now chains.now }
    ensures { result ≡ left - sum_by (override_row source.now.image.now (W.told source.now.weights.now)) (overrides_of source.now.image.now row) }
{
    let mut left = left;
    let mut at = chains.first(row);
    while at != 0 {
        left = charge_override(source, at, left);
        at = chains.next(at);
    }
    left
}

/// Takes off the weight of a row of MethodImpl.
#[tactic(auto, using(crate::proofs::Charging::both_off), unfolding(metadata_tables::specs::Schema::schema, crate::specs::RowWeights::override_row))]
fn charge_override<W: RowWeights>(source: &WeightSource<'_, '_, W>, row: u32, left: u64) -> u64
    requires { HasRow source.now.image.now 0x19 row }
    ensures { result ≡ left - override_row source.now.image.now (W.told source.now.weights.now) row }
{
    let of = source.image.tables().cell(0x19, row, 2);
    charge_method(
        source.weights,
        Coded::MethodDefOrRef,
        of,
        left.saturating_sub(64),
    )
}

ghost use Rattle.std.specs.Prelude.{◌≡◌, ◌<◌, ◌-◌, ◌^◌};
ghost use Rattle.image_model.specs.Rows.{HasRow};
ghost use Rattle.image_weights.specs.RowWeights.{attribute_row, attributes};
ghost use Rattle.row_demands.specs.Structured.{MeetStructure};

use crate::WeightSource;
use crate::heap_lengths::charge_blob;
use crate::names::charge_method;
use crate::rows::{Charges, charge_owned};
use metadata_tables::Coded;
use told_weights::RowWeights;

/// Takes off the weights of the attributes of a row, by the coded index with which they name it (II.22.10).
#[tactic(auto, unfolding(metadata_tables::specs::Schema::schema))]
pub(crate) fn charge_attributes<W: RowWeights>(
    source: &WeightSource<'_, '_, W>,
    index: u64,
    left: u64,
) -> u64
    requires small { index < 2 ^ 40 }
    requires meets { MeetStructure source.now.image.now }
    ensures { result ≡ left - attributes source.now.image.now (W.told source.now.weights.now) index }
{
    charge_owned(
        source.image,
        &AttributeRows { source },
        0x0C,
        0,
        index,
        left,
    )
}

/// Rows of CustomAttribute.
#[derive(Drop)]
struct AttributeRows<'r, 's, 'a, W: RowWeights> {
    source: &'r WeightSource<'s, 'a, W>,
}

impl<'r, 's, 'a, W: RowWeights> Charges for AttributeRows<'r, 's, 'a, W> {
    ghost use Rattle.image_model.specs.Rows.{HasRow};
    ghost use Rattle.image_weights.specs.RowWeights.{attribute_row};

    ghost there = { λ it row. HasRow it.source.now.image.now 0x0C row };

    ghost weight = { λ it row. attribute_row it.source.now.image.now (W.told it.source.now.weights.now) row };

    fn charge(&self, row: u32, left: u64) -> u64 {
        charge_attribute(self.source, row, left)
    }
}

/// Takes off the weight of an attribute.
#[tactic(auto, using(crate::proofs::Charging::both_off), unfolding(metadata_tables::specs::Schema::schema, crate::specs::RowWeights::attribute_row))]
fn charge_attribute<W: RowWeights>(source: &WeightSource<'_, '_, W>, row: u32, left: u64) -> u64
    requires { HasRow source.now.image.now 0x0C row }
    ensures { result ≡ left - attribute_row source.now.image.now (W.told source.now.weights.now) row }
{
    let of = source.image.tables().cell(0x0C, row, 1);
    let left = left.saturating_sub(64);
    let left = charge_method(source.weights, Coded::CustomAttributeType, of, left);
    charge_blob(source.image, 0x0C, row, 2, left)
}

ghost use Rattle.std.specs.Prelude.{◌≡◌, ◌<◌, ◌-◌, ◌^◌, sum_by};
ghost use Rattle.image_model.specs.Columns.{bound_parameter};
ghost use Rattle.image_model.specs.Rows.{HasRow, rows_with};
ghost use Rattle.image_weights.specs.RowWeights.{bound_row, generic_row, generics};
ghost use Rattle.row_demands.specs.Structured.{MeetStructure};

use crate::WeightSource;
use crate::attribute_rows::charge_attributes;
use crate::heap_lengths::charge_text;
use crate::names::charge_owner;
use crate::rows::{Charges, charge_owned};
use told_weights::RowWeights;

/// Takes off the weights of the generic parameters of a type or a method, by the coded index with which they name it (II.22.20).
#[tactic(auto, unfolding(metadata_tables::specs::Schema::schema))]
pub(crate) fn charge_generics<W: RowWeights>(
    source: &WeightSource<'_, '_, W>,
    index: u64,
    left: u64,
) -> u64
    requires small { index < 2 ^ 40 }
    requires meets { MeetStructure source.now.image.now }
    ensures { result ≡ left - generics source.now.image.now (W.told source.now.weights.now) index }
{
    charge_owned(source.image, &GenericRows { source }, 0x2A, 2, index, left)
}

/// Rows of GenericParam.
#[derive(Drop)]
struct GenericRows<'r, 's, 'a, W: RowWeights> {
    source: &'r WeightSource<'s, 'a, W>,
}

impl<'r, 's, 'a, W: RowWeights> Charges for GenericRows<'r, 's, 'a, W> {
    ghost use Rattle.image_model.specs.Rows.{HasRow};
    ghost use Rattle.image_weights.specs.RowWeights.{generic_row};
    ghost use Rattle.row_demands.specs.Structured.{MeetStructure};

    ghost there = { λ it row. HasRow it.source.now.image.now 0x2A row × MeetStructure it.source.now.image.now };

    ghost weight = { λ it row. generic_row it.source.now.image.now (W.told it.source.now.weights.now) row };

    fn charge(&self, row: u32, left: u64) -> u64 {
        charge_generic(self.source, row, left)
    }
}

/// Takes off the weight of a generic parameter.
#[tactic(auto, using(crate::proofs::Charging::both_off), unfolding(metadata_tables::specs::Schema::schema, crate::specs::RowWeights::generic_row))]
fn charge_generic<W: RowWeights>(source: &WeightSource<'_, '_, W>, row: u32, left: u64) -> u64
    requires there { HasRow source.now.image.now 0x2A row }
    requires meets { MeetStructure source.now.image.now }
    ensures { result ≡ left - generic_row source.now.image.now (W.told source.now.weights.now) row }
{
    let left = left.saturating_sub(64);
    let left = charge_text(source.image, 0x2A, row, 3, left);
    let left = charge_bounds(source, row, left);
    charge_attributes(source, u64::from(row) * 32 + 19, left)
}

/// Takes off the weights of the bounds of a generic parameter (II.22.21).
#[tactic(auto, unfolding(metadata_tables::specs::Schema::schema))]
fn charge_bounds<W: RowWeights>(source: &WeightSource<'_, '_, W>, row: u32, left: u64) -> u64
    requires { MeetStructure source.now.image.now }
    ensures { result ≡ left - sum_by (bound_row source.now.image.now (W.told source.now.weights.now)) (rows_with source.now.image.now 0x2C bound_parameter row) }
{
    charge_owned(
        source.image,
        &BoundRows { source },
        0x2C,
        0,
        u64::from(row),
        left,
    )
}

/// Rows of GenericParamConstraint.
#[derive(Drop)]
struct BoundRows<'r, 's, 'a, W: RowWeights> {
    source: &'r WeightSource<'s, 'a, W>,
}

impl<'r, 's, 'a, W: RowWeights> Charges for BoundRows<'r, 's, 'a, W> {
    ghost use Rattle.image_model.specs.Rows.{HasRow};
    ghost use Rattle.image_weights.specs.RowWeights.{bound_row};

    ghost there = { λ it row. HasRow it.source.now.image.now 0x2C row };

    ghost weight = { λ it row. bound_row it.source.now.image.now (W.told it.source.now.weights.now) row };

    fn charge(&self, row: u32, left: u64) -> u64 {
        charge_bound(self.source, row, left)
    }
}

/// Takes off the weight of a bound.
#[tactic(auto, using(crate::proofs::Charging::both_off), unfolding(metadata_tables::specs::Schema::schema, crate::specs::RowWeights::bound_row))]
fn charge_bound<W: RowWeights>(source: &WeightSource<'_, '_, W>, row: u32, left: u64) -> u64
    requires { HasRow source.now.image.now 0x2C row }
    ensures { result ≡ left - bound_row source.now.image.now (W.told source.now.weights.now) row }
{
    let of = source.image.tables().cell(0x2C, row, 1);
    charge_owner(source.weights, of, left.saturating_sub(64))
}

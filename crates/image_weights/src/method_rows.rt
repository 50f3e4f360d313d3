ghost use Rattle.std.specs.Prelude.{◌≡◌, ◌<◌, ◌≤◌, ◌+◌, ◌-◌, ◌^◌, ℕ, sum_by};
ghost use Rattle.std.specs.List.{range_with_len};
ghost use Rattle.image_methods.specs.Overriders.{AreOverriders};
ghost use Rattle.image_model.specs.Rows.{HasRow};
ghost use Rattle.image_weights.specs.RowWeights.{method_row};
ghost use Rattle.image_weights.specs.Standing.{Stands};

use crate::WeightSource;
use crate::attribute_rows::charge_attributes;
use crate::generic_rows::charge_generics;
use crate::heap_lengths::charge_text;
use crate::override_rows::charge_overrides;
use crate::param_rows::charge_params;
use crate::rows::{Charges, charge_rows};
use row_groups::Rows;
use told_weights::RowWeights;

/// Takes off the weights of methods that stand side by side (II.22.26).
pub(crate) fn charge_methods<W: RowWeights>(
    source: &WeightSource<'_, '_, W>,
    rows: Rows,
    left: u64,
) -> u64
    requires few { rows.first + rows.count ≤ 2 ^ 32 }
    requires there { (k : ℕ) → k < rows.count → HasRow source.now.image.now 0x06 (rows.first + k) }
    requires overrides { AreOverriders source.now.image.now source.now.maps.now.overrides.now }
    requires stands { Stands source.now.image.now }
    ensures { result ≡ left - sum_by (method_row source.now.image.now (W.told source.now.weights.now)) (range_with_len rows.first rows.count) }
{
    charge_rows(&MethodRows { source }, rows, left)
}

/// Rows of MethodDef.
#[derive(Drop)]
struct MethodRows<'r, 's, 'a, W: RowWeights> {
    source: &'r WeightSource<'s, 'a, W>,
}

impl<'r, 's, 'a, W: RowWeights> Charges for MethodRows<'r, 's, 'a, W> {
    ghost use Rattle.image_methods.specs.Overriders.{AreOverriders};
    ghost use Rattle.image_model.specs.Rows.{HasRow};
    ghost use Rattle.image_weights.specs.RowWeights.{method_row};
    ghost use Rattle.image_weights.specs.Standing.{Stands};

    ghost there = { λ it row. HasRow it.source.now.image.now 0x06 row × AreOverriders it.source.now.image.now it.source.now.maps.now.overrides.now × Stands it.source.now.image.now };

    ghost weight = { λ it row. method_row it.source.now.image.now (W.told it.source.now.weights.now) row };

    fn charge(&self, row: u32, left: u64) -> u64 {
        charge_method_row(self.source, row, left)
    }
}

/// Takes off the weight of a method.
#[tactic(auto, using(crate::proofs::Charging::both_off), unfolding(metadata_tables::specs::Schema::schema, crate::specs::RowWeights::method_row))]
fn charge_method_row<W: RowWeights>(source: &WeightSource<'_, '_, W>, row: u32, left: u64) -> u64
    requires there { HasRow source.now.image.now 0x06 row }
    requires overrides { AreOverriders source.now.image.now source.now.maps.now.overrides.now }
    requires stands { Stands source.now.image.now }
    ensures { result ≡ left - method_row source.now.image.now (W.told source.now.weights.now) row }
{
    let left = left.saturating_sub(64);
    let left = charge_text(source.image, 0x06, row, 3, left);
    let left = left.saturating_sub(source.weights.signature(row));
    let left = charge_generics(source, u64::from(row) * 2 + 1, left);
    let left = charge_params(source, row, left);
    let left = charge_overrides(source, source.maps.overrides, row, left);
    let left = left.saturating_sub(source.weights.body(row));
    charge_attributes(source, u64::from(row) * 32, left)
}

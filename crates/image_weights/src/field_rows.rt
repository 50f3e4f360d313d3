ghost use Rattle.std.specs.Prelude.{◌≡◌, ◌<◌, ◌≤◌, ◌+◌, ◌-◌, ◌^◌, ℕ, sum_by, slice_index};
ghost use Rattle.std.specs.List.{range_with_len};
ghost use Rattle.image_model.specs.Members.{offsets_of, data_of};
ghost use Rattle.image_model.specs.Rows.{HasRow};
ghost use Rattle.image_weights.specs.RowWeights.{field_row, first_weight};
ghost use Rattle.row_demands.specs.Structured.{MeetStructure};

use crate::WeightSource;
use crate::attribute_rows::charge_attributes;
use crate::constant_rows::charge_constant;
use crate::heap_lengths::charge_text;
use crate::rows::{Charges, charge_first, charge_present, charge_rows};
use image_streams::Image;
use row_groups::Rows;
use told_weights::RowWeights;

/// Takes off the weights of fields that stand side by side (II.22.15).
pub(crate) fn charge_fields<W: RowWeights>(
    source: &WeightSource<'_, '_, W>,
    rows: Rows,
    left: u64,
) -> u64
    requires few { rows.first + rows.count ≤ 2 ^ 32 }
    requires there { (k : ℕ) → k < rows.count → HasRow source.now.image.now 0x04 (rows.first + k) }
    requires meets { MeetStructure source.now.image.now }
    ensures { result ≡ left - sum_by (field_row source.now.image.now (W.told source.now.weights.now) source.now.sizes.now) (range_with_len rows.first rows.count) }
{
    charge_rows(&FieldRows { source }, rows, left)
}

/// Rows of Field.
#[derive(Drop)]
struct FieldRows<'r, 's, 'a, W: RowWeights> {
    source: &'r WeightSource<'s, 'a, W>,
}

impl<'r, 's, 'a, W: RowWeights> Charges for FieldRows<'r, 's, 'a, W> {
    ghost use Rattle.image_model.specs.Rows.{HasRow};
    ghost use Rattle.image_weights.specs.RowWeights.{field_row};
    ghost use Rattle.row_demands.specs.Structured.{MeetStructure};

    ghost there = { λ it row. HasRow it.source.now.image.now 0x04 row × MeetStructure it.source.now.image.now };

    ghost weight = { λ it row. field_row it.source.now.image.now (W.told it.source.now.weights.now) it.source.now.sizes.now row };

    fn charge(&self, row: u32, left: u64) -> u64 {
        charge_field(self.source, row, left)
    }
}

/// Takes off the weight of a field.
#[tactic(auto, using(crate::proofs::Charging::both_off), unfolding(metadata_tables::specs::Schema::schema, crate::specs::RowWeights::field_row))]
fn charge_field<W: RowWeights>(source: &WeightSource<'_, '_, W>, row: u32, left: u64) -> u64
    requires there { HasRow source.now.image.now 0x04 row }
    requires meets { MeetStructure source.now.image.now }
    ensures { result ≡ left - field_row source.now.image.now (W.told source.now.weights.now) source.now.sizes.now row }
{
    let left = left.saturating_sub(64);
    let left = charge_text(source.image, 0x04, row, 1, left);
    let left = left.saturating_sub(source.weights.field(row));
    let left = charge_constant(source.image, u64::from(row) * 4, left);
    let left = charge_offset(source.image, row, left);
    let left = charge_data(source.image, source.sizes, row, left);
    charge_attributes(source, u64::from(row) * 32 + 1, left)
}

/// Takes off 64 for the offset of a field, where it has one (II.22.16).
#[tactic(auto, unfolding(metadata_tables::specs::Schema::schema))]
fn charge_offset(image: &Image<'_>, row: u32, left: u64) -> u64
    requires { MeetStructure image.now }
    ensures { result ≡ left - first_weight (λ k. 64) (offsets_of image.now row) }
{
    charge_present(image, 0x10, 1, u64::from(row), left)
}

/// Takes off 64 and the bytes of the data of a field, where it has some (II.22.18).
#[tactic(auto, unfolding(metadata_tables::specs::Schema::schema))]
fn charge_data(image: &Image<'_>, sizes: &[u32], row: u32, left: u64) -> u64
    requires { MeetStructure image.now }
    ensures { result ≡ left - first_weight (λ k. 64 + slice_index sizes.now k) (data_of image.now row) }
{
    charge_first(image, &DataRows { sizes }, 0x1D, 1, u64::from(row), left)
}

/// Rows of FieldRVA.
#[derive(Drop)]
struct DataRows<'s> {
    sizes: &'s [u32],
}

impl<'s> Charges for DataRows<'s> {
    ghost use Rattle.std.specs.Prelude.{◌+◌, slice_index};

    ghost there = { λ it row. Unit };

    ghost weight = { λ it row. 64 + slice_index it.sizes.now row };

    fn charge(&self, row: u32, left: u64) -> u64 {
        let left = left.saturating_sub(64);
        match self.sizes.get(row as usize) {
            Some(size) => left.saturating_sub(u64::from(*size)),
            None => left,
        }
    }
}

ghost use Rattle.std.specs.Prelude.{◌≡◌, ◌<◌, ◌≤◌, ◌+◌, ◌-◌, ◌^◌, ℕ, sum_by};
ghost use Rattle.std.specs.List.{range_with_len};
ghost use Rattle.image_model.specs.Rows.{HasRow};
ghost use Rattle.image_weights.specs.RowWeights.{property_row, event_row};
ghost use Rattle.row_demands.specs.Structured.{MeetStructure};

use crate::WeightSource;
use crate::accessor_rows::charge_accessors;
use crate::attribute_rows::charge_attributes;
use crate::constant_rows::charge_constant;
use crate::heap_lengths::charge_text;
use crate::names::charge_owner;
use crate::rows::{Charges, charge_rows};
use row_groups::Rows;
use told_weights::RowWeights;

/// Takes off the weights of properties that stand side by side (II.22.34).
pub(crate) fn charge_properties<W: RowWeights>(
    source: &WeightSource<'_, '_, W>,
    rows: Rows,
    left: u64,
) -> u64
    requires few { rows.first + rows.count ≤ 2 ^ 32 }
    requires there { (k : ℕ) → k < rows.count → HasRow source.now.image.now 0x17 (rows.first + k) }
    requires meets { MeetStructure source.now.image.now }
    ensures { result ≡ left - sum_by (property_row source.now.image.now (W.told source.now.weights.now)) (range_with_len rows.first rows.count) }
{
    charge_rows(&PropertyRows { source }, rows, left)
}

/// Rows of Property.
#[derive(Drop)]
struct PropertyRows<'r, 's, 'a, W: RowWeights> {
    source: &'r WeightSource<'s, 'a, W>,
}

impl<'r, 's, 'a, W: RowWeights> Charges for PropertyRows<'r, 's, 'a, W> {
    ghost use Rattle.image_model.specs.Rows.{HasRow};
    ghost use Rattle.image_weights.specs.RowWeights.{property_row};
    ghost use Rattle.row_demands.specs.Structured.{MeetStructure};

    ghost there = { λ it row. HasRow it.source.now.image.now 0x17 row × MeetStructure it.source.now.image.now };

    ghost weight = { λ it row. property_row it.source.now.image.now (W.told it.source.now.weights.now) row };

    fn charge(&self, row: u32, left: u64) -> u64 {
        charge_property(self.source, row, left)
    }
}

/// Takes off the weight of a property.
#[tactic(auto, using(crate::proofs::Charging::both_off), unfolding(metadata_tables::specs::Schema::schema, crate::specs::RowWeights::property_row))]
fn charge_property<W: RowWeights>(source: &WeightSource<'_, '_, W>, row: u32, left: u64) -> u64
    requires there { HasRow source.now.image.now 0x17 row }
    requires meets { MeetStructure source.now.image.now }
    ensures { result ≡ left - property_row source.now.image.now (W.told source.now.weights.now) row }
{
    let left = left.saturating_sub(64);
    let left = charge_text(source.image, 0x17, row, 1, left);
    let left = left.saturating_sub(source.weights.property(row));
    let left = charge_constant(source.image, u64::from(row) * 4 + 2, left);
    let left = charge_accessors(source.image, u64::from(row) * 2 + 1, left);
    charge_attributes(source, u64::from(row) * 32 + 9, left)
}

/// Takes off the weights of events that stand side by side (II.22.13).
pub(crate) fn charge_events<W: RowWeights>(
    source: &WeightSource<'_, '_, W>,
    rows: Rows,
    left: u64,
) -> u64
    requires few { rows.first + rows.count ≤ 2 ^ 32 }
    requires there { (k : ℕ) → k < rows.count → HasRow source.now.image.now 0x14 (rows.first + k) }
    requires meets { MeetStructure source.now.image.now }
    ensures { result ≡ left - sum_by (event_row source.now.image.now (W.told source.now.weights.now)) (range_with_len rows.first rows.count) }
{
    charge_rows(&EventRows { source }, rows, left)
}

/// Rows of Event.
#[derive(Drop)]
struct EventRows<'r, 's, 'a, W: RowWeights> {
    source: &'r WeightSource<'s, 'a, W>,
}

impl<'r, 's, 'a, W: RowWeights> Charges for EventRows<'r, 's, 'a, W> {
    ghost use Rattle.image_model.specs.Rows.{HasRow};
    ghost use Rattle.image_weights.specs.RowWeights.{event_row};
    ghost use Rattle.row_demands.specs.Structured.{MeetStructure};

    ghost there = { λ it row. HasRow it.source.now.image.now 0x14 row × MeetStructure it.source.now.image.now };

    ghost weight = { λ it row. event_row it.source.now.image.now (W.told it.source.now.weights.now) row };

    fn charge(&self, row: u32, left: u64) -> u64 {
        charge_event(self.source, row, left)
    }
}

/// Takes off the weight of an event.
#[tactic(auto, using(crate::proofs::Charging::both_off), unfolding(metadata_tables::specs::Schema::schema, crate::specs::RowWeights::event_row))]
fn charge_event<W: RowWeights>(source: &WeightSource<'_, '_, W>, row: u32, left: u64) -> u64
    requires there { HasRow source.now.image.now 0x14 row }
    requires meets { MeetStructure source.now.image.now }
    ensures { result ≡ left - event_row source.now.image.now (W.told source.now.weights.now) row }
{
    let of = source.image.tables().cell(0x14, row, 2);
    let left = left.saturating_sub(64);
    let left = charge_text(source.image, 0x14, row, 1, left);
    let left = charge_owner(source.weights, of, left);
    let left = charge_accessors(source.image, u64::from(row) * 2, left);
    charge_attributes(source, u64::from(row) * 32 + 10, left)
}

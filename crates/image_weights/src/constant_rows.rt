ghost use Rattle.std.specs.Prelude.{◌≡◌, ◌<◌, ◌-◌, ◌^◌};
ghost use Rattle.image_model.specs.Rows.{HasRow};
ghost use Rattle.image_weights.specs.RowWeights.{constant_row, constants};
ghost use Rattle.row_demands.specs.Structured.{MeetStructure};

use crate::heap_lengths::charge_blob;
use crate::rows::{Charges, charge_first};
use image_streams::Image;

/// Takes off the weight of the constant of a row, by the coded index with which it names this, where there is one (II.22.9).
#[tactic(auto, unfolding(metadata_tables::specs::Schema::schema))]
pub(crate) fn charge_constant(image: &Image<'_>, index: u64, left: u64) -> u64
    requires small { index < 2 ^ 40 }
    requires meets { MeetStructure image.now }
    ensures { result ≡ left - constants image.now index }
{
    charge_first(image, &ConstantRows { image }, 0x0B, 2, index, left)
}

/// Rows of Constant.
#[derive(Drop)]
struct ConstantRows<'i, 'a> {
    image: &'i Image<'a>,
}

impl<'i, 'a> Charges for ConstantRows<'i, 'a> {
    ghost use Rattle.image_model.specs.Rows.{HasRow};
    ghost use Rattle.image_weights.specs.RowWeights.{constant_row};

    ghost there = { λ it row. HasRow it.image.now 0x0B row };

    ghost weight = { λ it row. constant_row it.image.now row };

    fn charge(&self, row: u32, left: u64) -> u64 {
        charge_value(self.image, row, left)
    }
}

/// Takes off the weight of a constant: only a string's depends on its value.
#[tactic(auto, using(crate::proofs::Charging::both_off), unfolding(metadata_tables::specs::Schema::schema, crate::specs::RowWeights::constant_row))]
fn charge_value(image: &Image<'_>, row: u32, left: u64) -> u64
    requires { HasRow image.now 0x0B row }
    ensures { result ≡ left - constant_row image.now row }
{
    let left = left.saturating_sub(64);
    if image.tables().cell(0x0B, row, 0) == 0x0E {
        charge_blob(image, 0x0B, row, 3, left)
    } else {
        left
    }
}

ghost use Rattle.std.specs.Prelude.{◌≡◌, ◌==◌, ◌-◌, if◌then◌else◌, sum_by};
ghost use Rattle.image_model.specs.Columns.{param_sequence, param_name};
ghost use Rattle.image_model.specs.Rows.{HasRow, params_of};
ghost use Rattle.image_weights.specs.RowWeights.{param_row, text};
ghost use Rattle.image_weights.specs.Standing.{Stands};
ghost use Rattle.row_demands.specs.Structured.{MeetStructure};

use crate::WeightSource;
use crate::attribute_rows::charge_attributes;
use crate::constant_rows::charge_constant;
use crate::heap_lengths::charge_text;
use crate::rows::{Charges, charge_rows};
use image_streams::Image;
use row_groups::Owners;
use row_parts::run_rows;
use told_weights::RowWeights;

/// The runs of params, by their methods.
const PARAMS: Owners = Owners {
    table: 0x06,
    column: 5,
    members: 0x08,
};

/// Takes off the weights of the params of a method (II.22.33).
#[tactic(auto, unfolding(metadata_tables::specs::Schema::schema))]
pub(crate) fn charge_params<W: RowWeights>(
    source: &WeightSource<'_, '_, W>,
    row: u32,
    left: u64,
) -> u64
    requires there { HasRow source.now.image.now 0x06 row }
    requires stands { Stands source.now.image.now }
    ensures { result ≡ left - sum_by (param_row source.now.image.now (W.told source.now.weights.now)) (params_of source.now.image.now row) }
{
    let rows = run_rows(source.image, PARAMS, row);
    charge_rows(&ParamRows { source }, rows, left)
}

/// Rows of Param.
#[derive(Drop)]
struct ParamRows<'r, 's, 'a, W: RowWeights> {
    source: &'r WeightSource<'s, 'a, W>,
}

impl<'r, 's, 'a, W: RowWeights> Charges for ParamRows<'r, 's, 'a, W> {
    ghost use Rattle.image_model.specs.Rows.{HasRow};
    ghost use Rattle.image_weights.specs.RowWeights.{param_row, text};
    ghost use Rattle.row_demands.specs.Structured.{MeetStructure};

    ghost there = { λ it row. HasRow it.source.now.image.now 0x08 row × MeetStructure it.source.now.image.now };

    ghost weight = { λ it row. param_row it.source.now.image.now (W.told it.source.now.weights.now) row };

    fn charge(&self, row: u32, left: u64) -> u64 {
        charge_param(self.source, row, left)
    }
}

/// Takes off the weight of a param.
#[tactic(auto, using(crate::proofs::Charging::both_off), unfolding(metadata_tables::specs::Schema::schema, crate::specs::RowWeights::param_row))]
fn charge_param<W: RowWeights>(source: &WeightSource<'_, '_, W>, row: u32, left: u64) -> u64
    requires there { HasRow source.now.image.now 0x08 row }
    requires meets { MeetStructure source.now.image.now }
    ensures { result ≡ left - param_row source.now.image.now (W.told source.now.weights.now) row }
{
    let left = left.saturating_sub(64);
    let left = charge_name(source.image, row, left);
    let left = charge_constant(source.image, u64::from(row) * 4 + 1, left);
    charge_attributes(source, u64::from(row) * 32 + 4, left)
}

/// Takes off the name of a param; that of the result isn't kept.
#[tactic(auto, unfolding(metadata_tables::specs::Schema::schema))]
fn charge_name(image: &Image<'_>, row: u32, left: u64) -> u64
    requires { HasRow image.now 0x08 row }
    ensures { result ≡ left - (if param_sequence image.now row == 0 then 0 else text image.now (param_name image.now row)) }
{
    if image.tables().cell(0x08, row, 1) == 0 {
        left
    } else {
        charge_text(image, 0x08, row, 2, left)
    }
}

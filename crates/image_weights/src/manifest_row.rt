ghost use Rattle.std.specs.Prelude.{◌≡◌, ◌-◌, sum_by};
ghost use Rattle.image_model.specs.Rows.{HasRow, rows_of};
ghost use Rattle.image_weights.specs.RowWeights.{manifest_row, extern_row};
ghost use Rattle.row_demands.specs.Structured.{MeetStructure};

use crate::WeightSource;
use crate::attribute_rows::charge_attributes;
use crate::heap_lengths::{charge_blob, charge_text};
use crate::rows::{Charges, charge_rows};
use image_streams::Image;
use row_groups::Rows;
use told_weights::RowWeights;

/// Takes off the weight of what the assembly and its module say of themselves (II.22.2, II.22.30).
#[tactic(auto, using(crate::proofs::Charging::both_off), unfolding(metadata_tables::specs::Schema::schema, crate::specs::RowWeights::manifest_row))]
pub(crate) fn charge_manifest<W: RowWeights>(source: &WeightSource<'_, '_, W>, left: u64) -> u64
    requires assembly { HasRow source.now.image.now 0x20 1 }
    requires module_row { HasRow source.now.image.now 0x00 1 }
    requires meets { MeetStructure source.now.image.now }
    ensures { result ≡ left - manifest_row source.now.image.now (W.told source.now.weights.now) }
{
    let left = charge_text(source.image, 0x20, 1, 7, left);
    let left = charge_blob(source.image, 0x20, 1, 6, left);
    let left = charge_text(source.image, 0x20, 1, 8, left);
    let left = charge_text(source.image, 0x00, 1, 1, left);
    let left = charge_attributes(source, 46, left);
    charge_attributes(source, 39, left)
}

/// Takes off the weights of the assemblies that an image names (II.22.5).
pub(crate) fn charge_externs(image: &Image<'_>, left: u64) -> u64
    ensures { result ≡ left - sum_by (extern_row image.now) (rows_of image.now 0x23) }
{
    let externs = image.tables().rows(0x23);
    let rows = Rows {
        first: 1,
        count: u64::from(externs),
    };
    charge_rows(&ExternRows { image }, rows, left)
}

/// Rows of AssemblyRef.
#[derive(Drop)]
struct ExternRows<'i, 'a> {
    image: &'i Image<'a>,
}

impl<'i, 'a> Charges for ExternRows<'i, 'a> {
    ghost use Rattle.image_model.specs.Rows.{HasRow};
    ghost use Rattle.image_weights.specs.RowWeights.{extern_row};

    ghost there = { λ it row. HasRow it.image.now 0x23 row };

    ghost weight = { λ it row. extern_row it.image.now row };

    fn charge(&self, row: u32, left: u64) -> u64 {
        charge_extern(self.image, row, left)
    }
}

/// Takes off the weight of an assembly that the image names.
#[tactic(auto, using(crate::proofs::Charging::both_off), unfolding(metadata_tables::specs::Schema::schema, crate::specs::RowWeights::extern_row))]
fn charge_extern(image: &Image<'_>, row: u32, left: u64) -> u64
    requires { HasRow image.now 0x23 row }
    ensures { result ≡ left - extern_row image.now row }
{
    let left = left.saturating_sub(64);
    let left = charge_text(image, 0x23, row, 6, left);
    let left = charge_blob(image, 0x23, row, 5, left);
    let left = charge_text(image, 0x23, row, 7, left);
    charge_blob(image, 0x23, row, 8, left)
}

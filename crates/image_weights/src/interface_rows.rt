ghost use Rattle.std.specs.Prelude.{◌≡◌, ◌-◌, sum_by, false, slice_index_or};
ghost use Rattle.image_model.specs.Columns.{interface_class};
ghost use Rattle.image_model.specs.Rows.{HasRow, rows_with};
ghost use Rattle.image_weights.specs.RowWeights.{interface_row};
ghost use Rattle.row_demands.specs.Structured.{MeetStructure};

use crate::WeightSource;
use crate::names::charge_owner;
use crate::rows::{Charges, charge_owned};
use told_weights::RowWeights;

/// Takes off the weights of the interfaces of a type, each once (II.22.23).
#[tactic(auto, unfolding(metadata_tables::specs::Schema::schema))]
pub(crate) fn charge_interfaces<W: RowWeights>(
    source: &WeightSource<'_, '_, W>,
    row: u32,
    left: u64,
) -> u64
    requires { MeetStructure source.now.image.now }
    ensures { result ≡ left - sum_by (interface_row source.now.image.now (W.told source.now.weights.now) source.now.fresh.now) (rows_with source.now.image.now 0x09 interface_class row) }
{
    charge_owned(
        source.image,
        &InterfaceRows { source },
        0x09,
        0,
        u64::from(row),
        left,
    )
}

/// Rows of InterfaceImpl.
#[derive(Drop)]
struct InterfaceRows<'r, 's, 'a, W: RowWeights> {
    source: &'r WeightSource<'s, 'a, W>,
}

impl<'r, 's, 'a, W: RowWeights> Charges for InterfaceRows<'r, 's, 'a, W> {
    ghost use Rattle.image_model.specs.Rows.{HasRow};
    ghost use Rattle.image_weights.specs.RowWeights.{interface_row};

    ghost there = { λ it row. HasRow it.source.now.image.now 0x09 row };

    ghost weight = { λ it row. interface_row it.source.now.image.now (W.told it.source.now.weights.now) it.source.now.fresh.now row };

    fn charge(&self, row: u32, left: u64) -> u64 {
        charge_interface(self.source, row, left)
    }
}

/// Takes off the weight of an interface that no earlier row of the type names.
#[tactic(auto, using(crate::proofs::Charging::both_off), unfolding(metadata_tables::specs::Schema::schema, crate::specs::RowWeights::interface_row))]
fn charge_interface<W: RowWeights>(source: &WeightSource<'_, '_, W>, row: u32, left: u64) -> u64
    requires { HasRow source.now.image.now 0x09 row }
    ensures { result ≡ left - interface_row source.now.image.now (W.told source.now.weights.now) source.now.fresh.now row }
{
    if !is_marked(source.fresh, row) {
        return left;
    }
    let of = source.image.tables().cell(0x09, row, 1);
    charge_owner(source.weights, of, left.saturating_sub(64))
}

/// Whether a row is marked.
fn is_marked(marks: &[bool], row: u32) -> bool
    ensures { result ≡ slice_index_or marks.now row false }
{
    match marks.get(row as usize) {
        Some(mark) => *mark,
        None => false,
    }
}

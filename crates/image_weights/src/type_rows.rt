ghost use Rattle.std.specs.Prelude.{◌≡◌, ◌<◌, ◌≤◌, ◌+◌, ◌-◌, ◌^◌, ℕ, sum_by};
ghost use Rattle.image_model.specs.Columns.{type_extends};
ghost use Rattle.image_model.specs.Members.{layouts_of};
ghost use Rattle.image_model.specs.Rows.{HasRow};
ghost use Rattle.image_types.specs.Maps.{AreMaps};
ghost use Rattle.image_weights.specs.RowWeights.{type_row, type_rows, base, first_weight};
ghost use Rattle.image_weights.specs.Standing.{Stands};
ghost use Rattle.row_demands.specs.Structured.{MeetStructure};

use crate::WeightSource;
use crate::attribute_rows::charge_attributes;
use crate::generic_rows::charge_generics;
use crate::heap_lengths::charge_text;
use crate::interface_rows::charge_interfaces;
use crate::member_runs::{
    charge_type_events, charge_type_fields, charge_type_methods, charge_type_properties,
};
use crate::names::charge_owner;
use crate::rows::{Charges, charge_present, charge_rows};
use image_streams::Image;
use row_groups::Rows;
use told_weights::RowWeights;

/// Takes off the weights of all types but the module's, each without those that it nests (II.22.37).
pub(crate) fn charge_types<W: RowWeights>(source: &WeightSource<'_, '_, W>, left: u64) -> u64
    requires maps { AreMaps source.now.image.now source.now.maps.now.events.now source.now.maps.now.properties.now source.now.maps.now.overrides.now }
    requires stands { Stands source.now.image.now }
    ensures { result ≡ left - sum_by (type_row source.now.image.now (W.told source.now.weights.now) source.now.sizes.now source.now.fresh.now) (type_rows source.now.image.now) }
{
    let types = source.image.tables().rows(0x02);
    let rows = Rows {
        first: 2,
        count: u64::from(types.saturating_sub(1)),
    };
    charge_rows(&TypeRows { source }, rows, left)
}

/// Rows of TypeDef.
#[derive(Drop)]
struct TypeRows<'r, 's, 'a, W: RowWeights> {
    source: &'r WeightSource<'s, 'a, W>,
}

impl<'r, 's, 'a, W: RowWeights> Charges for TypeRows<'r, 's, 'a, W> {
    ghost use Rattle.image_model.specs.Rows.{HasRow};
    ghost use Rattle.image_types.specs.Maps.{AreMaps};
    ghost use Rattle.image_weights.specs.RowWeights.{type_row};
    ghost use Rattle.image_weights.specs.Standing.{Stands};

    ghost there = { λ it row. HasRow it.source.now.image.now 0x02 row × AreMaps it.source.now.image.now it.source.now.maps.now.events.now it.source.now.maps.now.properties.now it.source.now.maps.now.overrides.now × Stands it.source.now.image.now };

    ghost weight = { λ it row. type_row it.source.now.image.now (W.told it.source.now.weights.now) it.source.now.sizes.now it.source.now.fresh.now row };

    fn charge(&self, row: u32, left: u64) -> u64 {
        charge_type(self.source, row, left)
    }
}

/// Takes off the weight of a type without those that it nests.
#[tactic(auto, using(crate::proofs::Charging::both_off), unfolding(metadata_tables::specs::Schema::schema, crate::specs::RowWeights::type_row))]
fn charge_type<W: RowWeights>(source: &WeightSource<'_, '_, W>, row: u32, left: u64) -> u64
    requires there { HasRow source.now.image.now 0x02 row }
    requires maps { AreMaps source.now.image.now source.now.maps.now.events.now source.now.maps.now.properties.now source.now.maps.now.overrides.now }
    requires stands { Stands source.now.image.now }
    ensures { result ≡ left - type_row source.now.image.now (W.told source.now.weights.now) source.now.sizes.now source.now.fresh.now row }
{
    let left = left.saturating_sub(64);
    let left = charge_text(source.image, 0x02, row, 2, left);
    let left = charge_text(source.image, 0x02, row, 1, left);
    let left = charge_layout(source.image, row, left);
    let left = charge_generics(source, u64::from(row) * 2, left);
    let left = charge_base(source, row, left);
    let left = charge_interfaces(source, row, left);
    let left = charge_type_fields(source, row, left);
    let left = charge_type_methods(source, row, left);
    let left = charge_type_properties(source, source.maps.properties, row, left);
    let left = charge_type_events(source, source.maps.events, row, left);
    charge_attributes(source, u64::from(row) * 32 + 3, left)
}

/// Takes off 64 for the layout of a type, where it has one (II.22.8).
#[tactic(auto, unfolding(metadata_tables::specs::Schema::schema))]
fn charge_layout(image: &Image<'_>, row: u32, left: u64) -> u64
    requires { MeetStructure image.now }
    ensures { result ≡ left - first_weight (λ k. 64) (layouts_of image.now row) }
{
    charge_present(image, 0x0F, 2, u64::from(row), left)
}

/// Takes off the weight of the base of a type, where it has one.
#[tactic(auto, unfolding(metadata_tables::specs::Schema::schema))]
fn charge_base<W: RowWeights>(source: &WeightSource<'_, '_, W>, row: u32, left: u64) -> u64
    requires { HasRow source.now.image.now 0x02 row }
    ensures { result ≡ left - base (W.told source.now.weights.now) (type_extends source.now.image.now row) }
{
    let value = source.image.tables().cell(0x02, row, 3);
    if value == 0 {
        left
    } else {
        charge_owner(source.weights, value, left)
    }
}

ghost use Rattle.std.specs.Prelude.{◌≡◌, ◌<◌, ◌≤◌, ◌+◌, ◌^◌, ℕ, IfOk, Contains};
ghost use Rattle.std.specs.List.{AllZip, range_with_len};
ghost use Rattle.image_model.specs.Reading.{IsProperty};
ghost use Rattle.image_model.specs.Rows.{HasRow, properties_of};
ghost use Rattle.image_source.specs.Names.{names_of};
ghost use Rattle.image_source.specs.Ready.{IsReady};

use crate::accessor_rows::accessors;
use assembly_tree::{Properties, Property};
use il_base::NoMemory;
use image_attributes::attributes;
use image_fields::{constant, without};
use image_source::{Source, property_signature};
use row_groups::Rows;
use row_parts::{Part, five, number_of, read_all, text_of};
use std::alloc::Global;

/// Properties of a type that stand side by side, in row order (II.22.34).
pub fn properties(
    alloc: Global,
    source: &Source<'_, '_>,
    type_row: u32,
    rows: Rows,
) -> Result<Properties, NoMemory>
    requires few { rows.first + rows.count ≤ 2 ^ 32 }
    requires type_there { HasRow source.now.image.now 0x02 type_row }
    requires there { (k : ℕ) → k < rows.count → HasRow source.now.image.now 0x17 (rows.first + k) × Contains (properties_of source.now.image.now type_row) (rows.first + k) }
    requires ready { IsReady source.now.image.now source.now.kept.now source.now.sizes.now }
    ensures { IfOk result (AllZip (IsProperty source.now.image.now (names_of source.now.kept.now) type_row) (range_with_len rows.first rows.count)) }
{
    read_all(alloc, &PropertyRows { source, type_row }, rows)
}

/// Rows of Property of a type.
#[derive(Drop)]
struct PropertyRows<'r, 's, 'a> {
    source: &'r Source<'s, 'a>,
    type_row: u32,
}

impl<'r, 's, 'a> Part<Property> for PropertyRows<'r, 's, 'a> {
    ghost use Rattle.std.specs.Prelude.{Contains};
    ghost use Rattle.image_model.specs.Reading.{IsProperty};
    ghost use Rattle.image_model.specs.Rows.{HasRow, properties_of};
    ghost use Rattle.image_source.specs.Names.{names_of};
    ghost use Rattle.image_source.specs.Ready.{IsReady};

    ghost there = { λ it row. HasRow it.source.now.image.now 0x02 it.type_row × HasRow it.source.now.image.now 0x17 row × Contains (properties_of it.source.now.image.now it.type_row) row × IsReady it.source.now.image.now it.source.now.kept.now it.source.now.sizes.now };

    ghost gives = { λ it row property. IsProperty it.source.now.image.now (names_of it.source.now.kept.now) it.type_row row property };

    fn read(&self, alloc: Global, row: u32) -> Result<Property, NoMemory> {
        property(alloc, self.source, self.type_row, row)
    }
}

/// HasDefault, which another table tells (II.23.1.14).
const TOLD: u16 = 0x1000;

/// A property of a type.
#[tactic(auto, unfolding(metadata_tables::specs::Schema::schema))]
fn property(
    alloc: Global,
    source: &Source<'_, '_>,
    type_row: u32,
    row: u32,
) -> Result<Property, NoMemory>
    requires type_there { HasRow source.now.image.now 0x02 type_row }
    requires there { HasRow source.now.image.now 0x17 row }
    requires owned { Contains (properties_of source.now.image.now type_row) row }
    requires ready { IsReady source.now.image.now source.now.kept.now source.now.sizes.now }
    ensures { IfOk result (IsProperty source.now.image.now (names_of source.now.kept.now) type_row row) }
{
    let flags = number_of(source.image, 0x17, row, 0);
    let (name, sig, constant, accessors, attributes) = five(
        text_of(alloc, source.image, 0x17, row, 1),
        property_signature(alloc, source, row),
        constant(alloc, source.image, u64::from(row) * 4 + 2),
        accessors(alloc, source.image, u64::from(row) * 2 + 1, type_row),
        attributes(alloc, source, u64::from(row) * 32 + 9),
    )?;
    Ok(Property {
        name,
        flags: without(flags, TOLD),
        sig,
        constant,
        accessors,
        attributes,
    })
}

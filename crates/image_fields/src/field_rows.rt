ghost use Rattle.std.specs.Prelude.{◌≡◌, ◌<◌, ◌≤◌, ◌+◌, ◌^◌, ℕ, IfOk};
ghost use Rattle.std.specs.List.{AllZip, range_with_len};
ghost use Rattle.image_model.specs.Reading.{IsField, without};
ghost use Rattle.image_model.specs.Rows.{HasRow};
ghost use Rattle.image_source.specs.Names.{names_of};
ghost use Rattle.image_source.specs.Ready.{IsReady};

use crate::constant_rows::constant;
use crate::field_contents::content;
use crate::field_offsets::offset;
use assembly_tree::{Field, Fields};
use il_base::NoMemory;
use image_attributes::attributes;
use image_source::{Source, field_type};
use row_groups::Rows;
use row_parts::{Part, five, number_of, read_all, text_of};
use std::alloc::Global;

/// Fields that stand side by side, in row order (II.22.15).
pub fn fields(alloc: Global, source: &Source<'_, '_>, rows: Rows) -> Result<Fields, NoMemory>
    requires few { rows.first + rows.count ≤ 2 ^ 32 }
    requires there { (k : ℕ) → k < rows.count → HasRow source.now.image.now 0x04 (rows.first + k) }
    requires ready { IsReady source.now.image.now source.now.kept.now source.now.sizes.now }
    ensures { IfOk result (AllZip (IsField source.now.image.now (names_of source.now.kept.now)) (range_with_len rows.first rows.count)) }
{
    read_all(alloc, &FieldRows { source }, rows)
}

/// Rows of Field.
#[derive(Drop)]
struct FieldRows<'r, 's, 'a> {
    source: &'r Source<'s, 'a>,
}

impl<'r, 's, 'a> Part<Field> for FieldRows<'r, 's, 'a> {
    ghost use Rattle.image_model.specs.Reading.{IsField};
    ghost use Rattle.image_model.specs.Rows.{HasRow};
    ghost use Rattle.image_source.specs.Names.{names_of};
    ghost use Rattle.image_source.specs.Ready.{IsReady};

    ghost there = { λ it row. HasRow it.source.now.image.now 0x04 row × IsReady it.source.now.image.now it.source.now.kept.now it.source.now.sizes.now };

    ghost gives = { λ it row field. IsField it.source.now.image.now (names_of it.source.now.kept.now) row field };

    fn read(&self, alloc: Global, row: u32) -> Result<Field, NoMemory> {
        field(alloc, self.source, row)
    }
}

/// HasDefault and HasFieldRVA, which other tables tell (II.23.1.5).
const TOLD: u16 = 0x8100;

/// A field.
#[tactic(auto, unfolding(metadata_tables::specs::Schema::schema))]
fn field(alloc: Global, source: &Source<'_, '_>, row: u32) -> Result<Field, NoMemory>
    requires there { HasRow source.now.image.now 0x04 row }
    requires ready { IsReady source.now.image.now source.now.kept.now source.now.sizes.now }
    ensures { IfOk result (IsField source.now.image.now (names_of source.now.kept.now) row) }
{
    let flags = number_of(source.image, 0x04, row, 0);
    let offset = offset(source.image, row);
    let (name, of, constant, content, attributes) = five(
        text_of(alloc, source.image, 0x04, row, 1),
        field_type(alloc, source, row),
        constant(alloc, source.image, u64::from(row) * 4),
        content(alloc, source, row),
        attributes(alloc, source, u64::from(row) * 32 + 1),
    )?;
    Ok(Field {
        name,
        flags: without(flags, TOLD),
        of,
        constant,
        offset,
        content,
        attributes,
    })
}

/// Flags without those that a row in another table tells.
pub fn without(flags: u16, other: u16) -> u16
    ensures { result ≡ without flags other }
{
    flags - (flags & other)
}

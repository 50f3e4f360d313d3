//! The rows of Field and FieldLayout (ECMA-335 II.22.15, II.22.16).
ghost use Rattle.std.specs.Prelude.{◌≡◌, ◌+◌, ◌-◌, ◌^◌, ◌<◌, ◌∷◌, [], length, OnOk};
ghost use Rattle.std.specs.List.{AllZip, flat_map, enumerate_from};
ghost use Rattle.metadata_tables.specs.Encoding.{rows_in};
ghost use Rattle.image_rows.specs.FieldRows.{stated_offset, offset_rows, field_flags, IsFieldRow, IsFieldAt, AddsItems};
ghost use Rattle.image_members.specs.Places.{lent};
ghost use Rattle.image_members.specs.Pushing.{AddsRows};

use assembly_tree::Field;
use il_base::NoMemory;
use image_tokens::references::References;
use image_tokens::row_set::Cells;
use image_tokens::tokens::{FIELD, FIELD_LAYOUT};
use metadata_tables::{Rows, row_of_columns};

/// Adds a row of Field for each declared field, in the order of the declared rows.
pub fn push_fields<'a>(
    refs: &References<'a>,
    rows: &mut Rows,
    fields: &[&'a Field],
) -> Result<(), NoMemory>
    requires declared { AllZip (IsFieldAt refs.now) refs.now.declared.fields (lent fields.now) }
    requires few { rows_in rows.old 0x04 + length fields.now < 2 ^ 24 }
    ensures { OnOk result (AddsItems 0x04 (IsFieldRow refs.now) (lent fields.now) rows.old rows.new) }
{
    let mut place: usize = 0;
    for field in fields {
        let cells = refs.declared.fields.at(place);
        push_field(rows, field, cells)?;
        place += 1;
    }
    Ok(())
}

/// Adds the row of a field, whose name and signature stand where its declared row says.
fn push_field(rows: &mut Rows, field: &Field, declared: Cells) -> Result<(), NoMemory>
    requires { rows_in rows.old 0x04 < 2 ^ 24 - 1 }
    ensures { OnOk result (AddsRows 0x04 ((field_flags field.now ∷ declared.second ∷ declared.third ∷ []) ∷ []) rows.old rows.new) }
{
    row_of_columns();
    let flags = flags_of(field);
    rows.push(FIELD, &[u32::from(flags), declared.second, declared.third])?;
    Ok(())
}

/// The flags, with HasDefault where there is a constant and HasFieldRVA where there is data (II.23.1.5).
fn flags_of(field: &Field) -> u16
    ensures { result ≡ field_flags field.now }
{
    let constant = if field.constant.is_some() { 0x8000 } else { 0 };
    let data = if field.content.is_some() { 0x0100 } else { 0 };
    field.flags | constant | data
}

/// Adds a row of FieldLayout for each field that has an offset.
pub fn push_offsets<'a>(rows: &mut Rows, fields: &[&'a Field]) -> Result<(), NoMemory>
    requires count { length fields.now < 2 ^ 24 - 1 }
    requires few { rows_in rows.old 0x10 + length fields.now < 2 ^ 24 }
    ensures { OnOk result (AddsRows 0x10 (flat_map offset_rows (enumerate_from 1 (lent fields.now))) rows.old rows.new) }
{
    let mut row: u32 = 1;
    for field in fields {
        push_offset(rows, row, field.offset)?;
        row += 1;
    }
    Ok(())
}

/// Adds the row of the offset of a field, where it has one.
fn push_offset(rows: &mut Rows, row: u32, offset: Option<u32>) -> Result<(), NoMemory>
    requires { rows_in rows.old 0x10 < 2 ^ 24 - 1 }
    ensures { OnOk result (AddsRows 0x10 (stated_offset row offset) rows.old rows.new) }
{
    match offset {
        None => Ok(()),
        Some(place) => {
            row_of_columns();
            rows.push(FIELD_LAYOUT, &[place, row])?;
            Ok(())
        }
    }
}

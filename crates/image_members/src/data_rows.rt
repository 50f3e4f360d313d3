//! The rows of FieldRVA, and the data of fields (ECMA-335 II.16.3, II.22.18).
ghost use Rattle.std.specs.Prelude.{◌+◌, ◌-◌, ◌^◌, ◌<◌, ◌≤◌, length, sum_by, OnOk};
ghost use Rattle.metadata_tables.specs.Encoding.{rows_in};
ghost use Rattle.image_members.specs.DataRows.{stated_data, all_data, data_room, AddsData};
ghost use Rattle.image_members.specs.Places.{lent};

use crate::placing::put_bytes;
use assembly_tree::Field;
use il_base::{Bytes, NoMemory};
use image_tokens::tokens::FIELD_RVA;
use metadata_tables::{Rows, row_of_columns};

/// Adds a row of FieldRVA for each field that has data, and the data behind the code.
pub fn push_all_data<'a>(
    code: &mut Bytes,
    rows: &mut Rows,
    fields: &[&'a Field],
) -> Result<(), NoMemory>
    requires count { length fields.now < 2 ^ 24 - 1 }
    requires few { rows_in rows.old 0x1D + length fields.now < 2 ^ 24 }
    requires long { length code.old + sum_by data_room (all_data 1 (lent fields.now)) ≤ 2 ^ 26 }
    ensures { OnOk result (AddsData (all_data 1 (lent fields.now)) code.old code.new rows.old rows.new) }
{
    let mut row: u32 = 1;
    for field in fields {
        push_data(code, rows, row, &field.content)?;
        row += 1;
    }
    Ok(())
}

/// Adds the row and the data of the field of a row, if it has data.
fn push_data(
    code: &mut Bytes,
    rows: &mut Rows,
    row: u32,
    content: &Option<Bytes>,
) -> Result<(), NoMemory>
    requires few { rows_in rows.old 0x1D < 2 ^ 24 - 1 }
    requires long { length code.old + sum_by data_room (stated_data row content.now) ≤ 2 ^ 26 }
    ensures { OnOk result (AddsData (stated_data row content.now) code.old code.new rows.old rows.new) }
{
    match content {
        None => Ok(()),
        Some(bytes) => {
            row_of_columns();
            let rva = put_bytes(code, 8, bytes.as_slice())?;
            rows.push(FIELD_RVA, &[rva, row])?;
            Ok(())
        }
    }
}

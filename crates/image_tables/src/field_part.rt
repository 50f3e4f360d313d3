//! The rows of fields, and their data (ECMA-335 II.16.3, II.22.15, II.22.16, II.22.18).
ghost use Rattle.std.specs.Prelude.{◌≡◌, ◌+◌, ◌^◌, ◌≤◌, length, sum_by, OnOk};
ghost use Rattle.assembly_tree.specs.declared.assembly.Assembly.{Assembly};
ghost use Rattle.image_members.specs.DataRows.{all_data, data_room};
ghost use Rattle.image_members.specs.Places.{lent};
ghost use Rattle.image_tables.specs.Filling.{Lengthens};
ghost use Rattle.image_tables.specs.FieldPart.{CanFillFields, FillsFields};

use assembly_tree::Field;
use il_base::{Bytes, NoMemory};
use image_members::data_rows::push_all_data;
use image_rows::field_rows::{push_fields, push_offsets};
use image_tokens::references::References;
use metadata_tables::Rows;

/// Adds the rows of fields, of their offsets and of their data, and the data behind the code.
pub fn push_field_part<'a>(
    refs: &References<'a>,
    rows: &mut Rows,
    code: &mut Bytes,
    fields: &[&'a Field],
) -> Result<(), NoMemory>
    requires can { CanFillFields (lent fields.now) refs.now rows.old }
    requires long { length code.old + sum_by data_room (all_data 1 (lent fields.now)) ≤ 2 ^ 26 }
    ensures fills { OnOk result (FillsFields (lent fields.now) refs.now code.new rows.old rows.new) }
    ensures lengthens { OnOk result (Lengthens (sum_by data_room (all_data 1 (lent fields.now))) code.old code.new) }
{
    push_fields(refs, rows, fields)?;
    push_offsets(rows, fields)?;
    push_all_data(code, rows, fields)?;
    Ok(())
}

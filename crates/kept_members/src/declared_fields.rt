ghost use Rattle.std.specs.Prelude.{ℕ, ◌+◌, ◌<◌, ◌≤◌, ◌^◌, IfOk, OnOk, Contains};
ghost use Rattle.image_model.specs.Rows.{HasRow, fields_of, token_of};
ghost use Rattle.kept_members.specs.Maps.{all_of, Has, Adds};
ghost use Rattle.kept_members.specs.Members.{CanKeep, OwnsField, IsFieldOf, HasFields};

use crate::owners::{kept_owner, token_of};
use crate::signatures::{field_in, sure};
use il_base::{Copies, NoMemory};
use image_streams::Image;
use kept_names::{Kept, KeptNames};
use row_groups::{Owners, Rows};
use row_parts::{run_rows, text_of, three};
use std::alloc::Global;
use type_terms::{FieldRef, Owner};

/// The runs of fields (II.22.37).
const FIELDS: Owners = Owners {
    table: 0x02,
    column: 4,
    members: 0x04,
};

/// Keeps the fields of all types (II.22.15).
pub(crate) fn keep_fields(
    alloc: Global,
    image: &Image<'_>,
    known: &KeptNames,
    fields: &mut Kept<FieldRef>,
) -> Result<(), NoMemory>
    requires { CanKeep image.now known.now }
    ensures adds { OnOk result (Adds (IsFieldOf image.now known.now) (all_of fields.old) (all_of fields.new)) }
    ensures has { OnOk result (HasFields image.now (all_of fields.new)) }
{
    for of in 0..image.tables().rows(0x02) {
        keep_of_type(alloc, image, known, of + 1, fields)?;
    }
    Ok(())
}

/// Keeps the fields of a type, those of `<Module>` among them.
#[tactic(auto, unfolding(metadata_tables::specs::Schema::schema))]
fn keep_of_type(
    alloc: Global,
    image: &Image<'_>,
    known: &KeptNames,
    of: u32,
    fields: &mut Kept<FieldRef>,
) -> Result<(), NoMemory>
    requires can { CanKeep image.now known.now }
    requires there { HasRow image.now 0x02 of }
    ensures adds { OnOk result (Adds (IsFieldOf image.now known.now) (all_of fields.old) (all_of fields.new)) }
    ensures has { OnOk result ((row : ℕ) → Contains (fields_of image.now of) row → Has (all_of fields.new) (token_of 0x04 row)) }
{
    let owner = kept_owner(known, 0x02, of);
    let rows = run_rows(image, FIELDS, of);
    keep_rows(alloc, image, known, owner, rows, fields)
}

/// Keeps fields of a type that stand side by side.
fn keep_rows(
    alloc: Global,
    image: &Image<'_>,
    known: &KeptNames,
    owner: &Owner,
    rows: Rows,
    fields: &mut Kept<FieldRef>,
) -> Result<(), NoMemory>
    requires can { CanKeep image.now known.now }
    requires few { rows.first + rows.count ≤ 2 ^ 32 }
    requires owns { (k : ℕ) → k < rows.count → HasRow image.now 0x04 (rows.first + k) × OwnsField image.now (rows.first + k) owner.now }
    ensures adds { OnOk result (Adds (IsFieldOf image.now known.now) (all_of fields.old) (all_of fields.new)) }
    ensures has { OnOk result ((k : ℕ) → k < rows.count → Has (all_of fields.new) (token_of 0x04 (rows.first + k))) }
{
    for k in 0..rows.count {
        keep_row(alloc, image, known, owner, (rows.first + k) as u32, fields)?;
    }
    Ok(())
}

/// Keeps a field of a type.
fn keep_row(
    alloc: Global,
    image: &Image<'_>,
    known: &KeptNames,
    owner: &Owner,
    row: u32,
    fields: &mut Kept<FieldRef>,
) -> Result<(), NoMemory>
    requires can { CanKeep image.now known.now }
    requires there { HasRow image.now 0x04 row }
    requires owns { OwnsField image.now row owner.now }
    ensures adds { OnOk result (Adds (IsFieldOf image.now known.now) (all_of fields.old) (all_of fields.new)) }
    ensures has { OnOk result (Has (all_of fields.new) (token_of 0x04 row)) }
{
    let field = field(alloc, image, known, owner, row)?;
    fields.keep(token_of(0x04, row), field)
}

/// A field of a type.
#[tactic(auto, unfolding(metadata_tables::specs::Schema::schema))]
fn field(
    alloc: Global,
    image: &Image<'_>,
    known: &KeptNames,
    owner: &Owner,
    row: u32,
) -> Result<FieldRef, NoMemory>
    requires can { CanKeep image.now known.now }
    requires there { HasRow image.now 0x04 row }
    requires owns { OwnsField image.now row owner.now }
    ensures { IfOk result (IsFieldOf image.now known.now (token_of 0x04 row)) }
{
    let (owner, name, of) = three(
        owner.copy(alloc),
        text_of(alloc, image, 0x04, row, 1),
        sure(field_in(alloc, image, known, 0x04, row, 2)),
    )?;
    Ok(FieldRef { owner, name, of })
}

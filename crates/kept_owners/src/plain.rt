ghost use Rattle.std.specs.Prelude.{◌≡◌, ℕ, OnOk};
ghost use Rattle.image_model.specs.Rows.{HasRow, count_of};
ghost use Rattle.kept_owners.specs.Kept.{AreThere, Goes, HasFew, IsThere};
ghost use Rattle.kept_owners.specs.Paths.{IsShort};
ghost use Rattle.row_demands.specs.Structured.{MeetStructure};

use crate::names::name_of;
use crate::put::put;
use il_base::NoMemory;
use image_streams::Image;
use kept_names::KeptNames;
use row_groups::Outers;
use std::alloc::Global;
use type_terms::Owner;

/// Keeps the names of all rows of TypeDef or of TypeRef.
pub(crate) fn keep_table(
    alloc: Global,
    image: &Image<'_>,
    outers: &Outers<'_, '_>,
    table: u8,
    kept: &mut KeptNames,
) -> Result<(), NoMemory>
    requires same { outers.now ≡ image.now }
    requires meets { MeetStructure image.now }
    requires short { (row : ℕ) → HasRow image.now table row → IsShort image.now table row }
    ensures goes { OnOk result (Goes image.now kept.old kept.new) }
    ensures there { OnOk result (AreThere kept.new table (count_of image.now table)) }
    ensures few { HasFew image.now table }
{
    for row in 0..image.tables().rows(table) {
        keep_row(alloc, image, outers, table, row + 1, kept)?;
    }
    Ok(())
}

/// Keeps the name of a row.
fn keep_row(
    alloc: Global,
    image: &Image<'_>,
    outers: &Outers<'_, '_>,
    table: u8,
    row: u32,
    kept: &mut KeptNames,
) -> Result<(), NoMemory>
    requires same { outers.now ≡ image.now }
    requires meets { MeetStructure image.now }
    requires short { IsShort image.now table row }
    ensures goes { OnOk result (Goes image.now kept.old kept.new) }
    ensures there { OnOk result (IsThere kept.new table row) }
{
    let name = name_of(alloc, image, outers, table, row)?;
    put(kept, table, row, Owner::Name(name))
}

ghost use Rattle.std.specs.Prelude.{◌≡◌, ◌<◌, [], ◌∷◌, ◌++◌, ℕ, IfOk, OnOk, Ok, Option, length};
ghost use Rattle.type_terms.specs.declared.name.TypeId.{TypeId};
ghost use Rattle.type_terms.specs.declared.term.Owner.{Owner};
ghost use Rattle.type_terms.specs.declared.term.Owner.TheVariants.{Name};
ghost use Rattle.image_model.specs.Naming.{RowOwner};
ghost use Rattle.image_model.specs.Rows.{HasRow};
ghost use Rattle.kept_owners.specs.Paths.{AreIds, AreRows, HasRowId, IsShort, IsTypeTable};
ghost use Rattle.row_demands.specs.Structured.{MeetStructure};

use crate::climb::{outermost, rows_outward, scope_of};
use heaps::one_content_at_an_index;
use il_base::NoMemory;
use image_streams::Image;
use row_groups::Outers;
use row_parts::{pair, text_of};
use std::alloc::Global;
use type_terms::{Path, TypeId, TypeName};

/// The name of a type or a reference, by its row.
pub(crate) fn name_of(
    alloc: Global,
    image: &Image<'_>,
    outers: &Outers<'_, '_>,
    table: u8,
    row: u32,
) -> Result<TypeName, NoMemory>
    requires same { outers.now ≡ image.now }
    requires meets { MeetStructure image.now }
    requires short { IsShort image.now table row }
    ensures { (owners : ℕ → Option Owner) → IfOk result (λ name. RowOwner image.now owners table row (Name name)) }
{
    one_content_at_an_index();
    let rows = rows_outward(alloc, image, outers, table, row)?;
    let path = path_of(alloc, image, table, rows.as_slice())?;
    let scope = scope_of(image, table, outermost(rows.as_slice()));
    Ok(TypeName { scope, path })
}

/// The path of some rows, from the outermost on.
fn path_of(alloc: Global, image: &Image<'_>, table: u8, rows: &[u32]) -> Result<Path, NoMemory>
    requires meets { MeetStructure image.now }
    requires kind { IsTypeTable table }
    requires there { AreRows image.now table rows.now }
    requires some { 0 < length rows.now }
    ensures { IfOk result (AreIds image.now table rows.now) }
{
    let last = rows.len() - 1;
    let mut path = first_of(alloc, image, table, rows[last])?;
    for k in 0..last {
        add(&mut path, id_of(alloc, image, table, rows[last - 1 - k]))?;
    }
    Ok(path)
}

/// Adds a name to a path, where there was memory for it.
fn add(path: &mut Path, id: Result<TypeId, NoMemory>) -> Result<(), NoMemory>
    ensures { OnOk result ((x : TypeId) × (id ≡ Ok x) × (path.new ≡ path.old ++ x ∷ [])) }
{
    let id = id?;
    path.push(id)
}

/// The path of one row that lies in no other.
fn first_of(alloc: Global, image: &Image<'_>, table: u8, row: u32) -> Result<Path, NoMemory>
    requires meets { MeetStructure image.now }
    requires kind { IsTypeTable table }
    requires there { HasRow image.now table row }
    ensures { IfOk result (AreIds image.now table (row ∷ [])) }
{
    let id = id_of(alloc, image, table, row)?;
    Path::new(alloc, id)
}

/// Space and name of a type or a reference.
fn id_of(alloc: Global, image: &Image<'_>, table: u8, row: u32) -> Result<TypeId, NoMemory>
    requires meets { MeetStructure image.now }
    requires kind { IsTypeTable table }
    requires there { HasRow image.now table row }
    ensures { IfOk result (HasRowId image.now table row) }
{
    let (space, name) = pair(
        text_of(alloc, image, table, row, 2),
        text_of(alloc, image, table, row, 1),
    )?;
    Ok(TypeId { space, name })
}

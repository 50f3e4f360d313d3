ghost use Rattle.std.specs.Prelude.{◌≡◌, ◌<◌, IfOk, length};
ghost use Rattle.image_model.specs.Rows.{HasRow};
ghost use Rattle.kept_owners.specs.Paths.{AreOutward, IsShort, IsTypeTable, last_of, outer_of, scope_in, scope_of, scope_row};
ghost use Rattle.metadata_tables.specs.CodedIndex.{unpacked};
ghost use Rattle.metadata_tables.specs.declared.coded.Coded.TheVariants.{ResolutionScope};
ghost use Rattle.image_model.specs.Columns.{type_ref_scope};
ghost use Rattle.row_demands.specs.Structured.{MeetStructure};

use il_base::{Items, NoMemory, Numbers};
use image_streams::Image;
use metadata_tables::{Coded, unpack_coded};
use row_groups::Outers;
use std::alloc::Global;
use type_terms::Scope;

/// The most names that a path has (I13).
const MAX_PATH: usize = 100;

/// The rows of the path of a type or a reference, from itself outward.
pub(crate) fn rows_outward(
    alloc: Global,
    image: &Image<'_>,
    outers: &Outers<'_, '_>,
    table: u8,
    row: u32,
) -> Result<Numbers, NoMemory>
    requires same { outers.now ≡ image.now }
    requires meets { MeetStructure image.now }
    requires short { IsShort image.now table row }
    ensures { IfOk result (AreOutward image.now table row) }
{
    let mut rows = Items::new(alloc);
    let mut at = row;
    for _ in 0..MAX_PATH {
        if at == 0 {
            return Ok(rows);
        }
        rows.push(at)?;
        at = outer_of(image, outers, table, at);
    }
    Ok(rows)
}

/// The row under which a row lies, or 0.
fn outer_of(image: &Image<'_>, outers: &Outers<'_, '_>, table: u8, row: u32) -> u32
    requires same { outers.now ≡ image.now }
    requires kind { IsTypeTable table }
    requires there { HasRow image.now table row }
    ensures { result ≡ outer_of image.now table row }
{
    if table == 0x02 {
        return outers.of(row);
    }
    outer_reference(image, row)
}

/// The reference that is the scope of a reference, or 0.
#[tactic(auto, unfolding(metadata_tables::specs::Schema::schema))]
fn outer_reference(image: &Image<'_>, row: u32) -> u32
    requires { HasRow image.now 0x01 row }
    ensures { result ≡ scope_row (unpacked ResolutionScope (type_ref_scope image.now row)) }
{
    match unpack_coded(Coded::ResolutionScope, image.tables().cell(0x01, row, 0)) {
        Some((table, outer)) => { if table == 0x01 { outer } else { 0 } }
        None => 0,
    }
}

/// The outermost of the rows of a path.
pub(crate) fn outermost(rows: &[u32]) -> u32
    requires { 0 < length rows.now }
    ensures { result ≡ last_of rows.now }
{
    rows[rows.len() - 1]
}

/// Where a path begins, by its outermost row.
pub(crate) fn scope_of(image: &Image<'_>, table: u8, row: u32) -> Scope
    requires kind { IsTypeTable table }
    requires there { HasRow image.now table row }
    ensures { result ≡ scope_of image.now table row }
{
    if table == 0x02 {
        return Scope::Here;
    }
    reference_scope(image, row)
}

/// Where the path of a reference that lies in no other begins.
#[tactic(auto, unfolding(metadata_tables::specs::Schema::schema))]
fn reference_scope(image: &Image<'_>, row: u32) -> Scope
    requires { HasRow image.now 0x01 row }
    ensures { result ≡ scope_in (unpacked ResolutionScope (type_ref_scope image.now row)) }
{
    match unpack_coded(Coded::ResolutionScope, image.tables().cell(0x01, row, 0)) {
        Some((table, assembly)) => {
            if table == 0x23 {
                return Scope::Extern(assembly.saturating_sub(1));
            }
            Scope::Here
        }
        None => Scope::Here,
    }
}

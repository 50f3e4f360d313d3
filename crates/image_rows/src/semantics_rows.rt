//! The rows of MethodSemantics (ECMA-335 II.22.28).
ghost use Rattle.std.specs.Prelude.{◌∷◌, [], ◌-◌, ◌^◌, ◌<◌, map, OnOk};
ghost use Rattle.image_members.specs.Pushing.{AddsRows};
ghost use Rattle.image_rows.specs.SemanticsRows.{accessors_with, accessors_in, accessors_at, all_accessors, semantics_row, CanAddAccessors};

use assembly_tree::{Accessor, Accessors};
use il_base::{Items, NoMemory};
use image_tokens::tokens::{METHOD_SEMANTICS, index_of};
use metadata_tables::{Coded, Rows, row_of_columns};

/// The accessors of an event or a property, and the row of the first method of its type.
#[derive(Clone, Copy)]
pub struct Access<'a> {
    pub first: u32,
    pub of: &'a Accessors,
}

/// A table whose rows have accessors, and those of each row.
#[derive(Drop)]
pub struct Accessing<'a> {
    pub table: u8,
    pub of: Items<Access<'a>>,
}

/// Adds the rows of the accessors of the first `count` rows of each table: by the number of the row, and
/// then in the order of the tables.
pub fn push_all_accessors<'a>(
    rows: &mut Rows,
    tables: &[Accessing<'a>],
    count: u32,
) -> Result<(), NoMemory>
    requires count { count < 2 ^ 24 }
    requires can { CanAddAccessors (all_accessors tables.now count) rows.old }
    ensures { OnOk result (AddsRows 0x18 (map semantics_row (all_accessors tables.now count)) rows.old rows.new) }
{
    for place in 0..count {
        push_accessors_at(rows, tables, place)?;
    }
    Ok(())
}

/// Adds the rows of the accessors of the row at this place in each table.
fn push_accessors_at<'a>(
    rows: &mut Rows,
    tables: &[Accessing<'a>],
    place: u32,
) -> Result<(), NoMemory>
    requires place { place < 2 ^ 24 - 1 }
    requires can { CanAddAccessors (accessors_at tables.now place) rows.old }
    ensures { OnOk result (AddsRows 0x18 (map semantics_row (accessors_at tables.now place)) rows.old rows.new) }
{
    for table in tables {
        push_accessors_in(rows, table, place)?;
    }
    Ok(())
}

/// Adds the rows of the accessors of the row at this place in a table, where there is such a row.
fn push_accessors_in<'a>(rows: &mut Rows, table: &Accessing<'a>, place: u32) -> Result<(), NoMemory>
    requires place { place < 2 ^ 24 - 1 }
    requires can { CanAddAccessors (accessors_in place table.now) rows.old }
    ensures { OnOk result (AddsRows 0x18 (map semantics_row (accessors_in place table.now)) rows.old rows.new) }
{
    let association = index_of(Coded::HasSemantics, table.table, place + 1);
    match table.of.get(place as usize) {
        None => Ok(()),
        Some(access) => push_accessors(rows, association, access.first, access.of.as_slice()),
    }
}

/// Adds the rows of accessors that belong to one event or property.
fn push_accessors(
    rows: &mut Rows,
    association: u32,
    first: u32,
    accessors: &[Accessor],
) -> Result<(), NoMemory>
    requires { CanAddAccessors (accessors_with association first accessors.now) rows.old }
    ensures { OnOk result (AddsRows 0x18 (map semantics_row (accessors_with association first accessors.now)) rows.old rows.new) }
{
    for accessor in accessors {
        push_accessor(rows, association, first, *accessor)?;
    }
    Ok(())
}

/// Adds the row of an accessor.
fn push_accessor(
    rows: &mut Rows,
    association: u32,
    first: u32,
    accessor: Accessor,
) -> Result<(), NoMemory>
    requires { CanAddAccessors (accessors_with association first (accessor ∷ [])) rows.old }
    ensures { OnOk result (AddsRows 0x18 (map semantics_row (accessors_with association first (accessor ∷ []))) rows.old rows.new) }
{
    row_of_columns();
    let method = first + accessor.method;
    rows.push(
        METHOD_SEMANTICS,
        &[u32::from(accessor.kind), method, association],
    )?;
    Ok(())
}

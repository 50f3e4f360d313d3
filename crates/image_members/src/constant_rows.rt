//! The rows of Constant (ECMA-335 II.22.9).
ghost use Rattle.std.specs.Prelude.{◌∷◌, [], ◌-◌, ◌^◌, ◌<◌, Some, OnOk};
ghost use Rattle.image_members.specs.ConstantRows.{constant_with, constants_in, constants_at, all_constants, constant_bytes, IsConstantRow, CanPushConstant};
ghost use Rattle.image_members.specs.Pushing.{Pushes, CanPush};

use crate::constants::{element_of, value_of};
use assembly_tree::Constant;
use il_base::{Items, NoMemory};
use image_tokens::blobs::refer_blob;
use image_tokens::references::References;
use image_tokens::tokens::{CONSTANT, index_of};
use metadata_tables::{Coded, Rows, row_of_columns};
use std::alloc::Global;

/// A table whose rows may have a constant, and that of each row.
#[derive(Drop)]
pub struct Valued<'a> {
    pub table: u8,
    pub of: Items<&'a Option<Constant>>,
}

/// Adds the rows of the constants of the first `count` rows of each table: by the number of the row, and
/// then in the order of the tables.
pub fn push_all_constants<'a>(
    alloc: Global,
    refs: &mut References<'a>,
    rows: &mut Rows,
    tables: &[Valued<'a>],
    count: u32,
) -> Result<(), NoMemory>
    requires count { count < 2 ^ 24 }
    requires can { CanPush 0x0B CanPushConstant constant_bytes (all_constants tables.now count) refs.old rows.old }
    ensures { OnOk result (Pushes 0x0B IsConstantRow constant_bytes (all_constants tables.now count) refs.old refs.new rows.old rows.new) }
{
    for place in 0..count {
        push_constants_at(alloc, refs, rows, tables, place)?;
    }
    Ok(())
}

/// Adds the rows of the constants of the row at this place in each table.
fn push_constants_at<'a>(
    alloc: Global,
    refs: &mut References<'a>,
    rows: &mut Rows,
    tables: &[Valued<'a>],
    place: u32,
) -> Result<(), NoMemory>
    requires place { place < 2 ^ 24 - 1 }
    requires can { CanPush 0x0B CanPushConstant constant_bytes (constants_at tables.now place) refs.old rows.old }
    ensures { OnOk result (Pushes 0x0B IsConstantRow constant_bytes (constants_at tables.now place) refs.old refs.new rows.old rows.new) }
{
    for table in tables {
        push_constants_in(alloc, refs, rows, table, place)?;
    }
    Ok(())
}

/// Adds the row of the constant of the row at this place in a table, where there is such a row.
fn push_constants_in<'a>(
    alloc: Global,
    refs: &mut References<'a>,
    rows: &mut Rows,
    table: &Valued<'a>,
    place: u32,
) -> Result<(), NoMemory>
    requires place { place < 2 ^ 24 - 1 }
    requires can { CanPush 0x0B CanPushConstant constant_bytes (constants_in place table.now) refs.old rows.old }
    ensures { OnOk result (Pushes 0x0B IsConstantRow constant_bytes (constants_in place table.now) refs.old refs.new rows.old rows.new) }
{
    let parent = index_of(Coded::HasConstant, table.table, place + 1);
    match table.of.get(place as usize) {
        None => Ok(()),
        Some(constant) => push_stated(alloc, refs, rows, parent, constant),
    }
}

/// Adds the row of the constant of a parent, if it has one.
fn push_stated<'a>(
    alloc: Global,
    refs: &mut References<'a>,
    rows: &mut Rows,
    parent: u32,
    constant: &Option<Constant>,
) -> Result<(), NoMemory>
    requires { CanPush 0x0B CanPushConstant constant_bytes (constant_with parent constant.now) refs.old rows.old }
    ensures { OnOk result (Pushes 0x0B IsConstantRow constant_bytes (constant_with parent constant.now) refs.old refs.new rows.old rows.new) }
{
    match constant {
        None => Ok(()),
        Some(of) => push_constant(alloc, refs, rows, parent, of),
    }
}

/// Adds the row of a constant.
fn push_constant<'a>(
    alloc: Global,
    refs: &mut References<'a>,
    rows: &mut Rows,
    parent: u32,
    constant: &Constant,
) -> Result<(), NoMemory>
    requires { CanPush 0x0B CanPushConstant constant_bytes (constant_with parent (Some constant.now)) refs.old rows.old }
    ensures { OnOk result (Pushes 0x0B IsConstantRow constant_bytes (constant_with parent (Some constant.now)) refs.old refs.new rows.old rows.new) }
{
    row_of_columns();
    let bytes = value_of(alloc, constant)?;
    let value = refer_blob(refs, bytes.as_slice())?;
    let element = element_of(constant);
    rows.push(CONSTANT, &[u32::from(element), 0, parent, value])?;
    Ok(())
}

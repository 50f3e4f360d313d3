//! The rows of CustomAttribute (ECMA-335 II.22.10).
ghost use Rattle.std.specs.Prelude.{◌≡◌, ℕ, ◌∷◌, [], ◌-◌, ◌^◌, ◌<◌, false, OnOk};
ghost use Rattle.std.specs.List.{list_any};
ghost use Rattle.image_members.specs.Emptiness.{any_has_item};
ghost use Rattle.image_rows.specs.AttributeRows.{attributes_with, attributes_in, attributes_at, all_attributes, attribute_bytes, IsAttributeRow, CanPushAttribute};
ghost use Rattle.image_members.specs.Pushing.{Pushes, CanPush};

use assembly_tree::{Attribute, Attributes};
use il_base::{Items, NoMemory};
use image_members::emptiness::have_items;
use image_tokens::blobs::refer_blob;
use image_tokens::methods::refer_method;
use image_tokens::references::References;
use image_tokens::tokens::{CUSTOM_ATTRIBUTE, index_of, index_of_token};
use metadata_tables::{Coded, Rows, row_of_columns};
use std::alloc::Global;

/// A table whose rows have attributes, and the attributes of each row.
#[derive(Drop)]
pub struct Attributed<'a> {
    pub table: u8,
    pub of: Items<&'a Attributes>,
}

/// Adds the rows of the attributes of the first `count` rows of each table: by the number of the row, and
/// then in the order of the tables.
pub fn push_all_attributes<'a>(
    alloc: Global,
    refs: &mut References<'a>,
    rows: &mut Rows,
    tables: &[Attributed<'a>],
    count: u32,
) -> Result<(), NoMemory>
    requires count { count < 2 ^ 24 }
    requires can { CanPush 0x0C CanPushAttribute attribute_bytes (all_attributes tables.now count) refs.old rows.old }
    ensures { OnOk result (Pushes 0x0C IsAttributeRow attribute_bytes (all_attributes tables.now count) refs.old refs.new rows.old rows.new) }
{
    if !have_attributes(tables) {
        return Ok(());
    }
    for place in 0..count {
        push_attributes_at(alloc, refs, rows, tables, place)?;
    }
    Ok(())
}

/// Whether any row of these tables has attributes.
fn have_attributes(tables: &[Attributed]) -> bool
    ensures any { result ≡ list_any (λ table. any_has_item table.of) tables.now }
    ensures none { result ≡ false → (k : ℕ) → attributes_at tables.now k ≡ [] }
{
    tables.iter().any(|table| have_items(table.of.as_slice()))
}

/// Adds the rows of the attributes of the row at this place in each table.
fn push_attributes_at<'a>(
    alloc: Global,
    refs: &mut References<'a>,
    rows: &mut Rows,
    tables: &[Attributed<'a>],
    place: u32,
) -> Result<(), NoMemory>
    requires place { place < 2 ^ 24 - 1 }
    requires can { CanPush 0x0C CanPushAttribute attribute_bytes (attributes_at tables.now place) refs.old rows.old }
    ensures { OnOk result (Pushes 0x0C IsAttributeRow attribute_bytes (attributes_at tables.now place) refs.old refs.new rows.old rows.new) }
{
    for table in tables {
        push_attributes_in(alloc, refs, rows, table, place)?;
    }
    Ok(())
}

/// Adds the rows of the attributes of the row at this place in a table, where there is such a row.
fn push_attributes_in<'a>(
    alloc: Global,
    refs: &mut References<'a>,
    rows: &mut Rows,
    table: &Attributed<'a>,
    place: u32,
) -> Result<(), NoMemory>
    requires place { place < 2 ^ 24 - 1 }
    requires can { CanPush 0x0C CanPushAttribute attribute_bytes (attributes_in place table.now) refs.old rows.old }
    ensures { OnOk result (Pushes 0x0C IsAttributeRow attribute_bytes (attributes_in place table.now) refs.old refs.new rows.old rows.new) }
{
    let parent = index_of(Coded::HasCustomAttribute, table.table, place + 1);
    match table.of.get(place as usize) {
        None => Ok(()),
        Some(attributes) => push_attributes(alloc, refs, rows, parent, attributes.as_slice()),
    }
}

/// Adds the rows of attributes of one parent.
fn push_attributes<'a>(
    alloc: Global,
    refs: &mut References<'a>,
    rows: &mut Rows,
    parent: u32,
    attributes: &'a [Attribute],
) -> Result<(), NoMemory>
    requires { CanPush 0x0C CanPushAttribute attribute_bytes (attributes_with parent attributes.now) refs.old rows.old }
    ensures { OnOk result (Pushes 0x0C IsAttributeRow attribute_bytes (attributes_with parent attributes.now) refs.old refs.new rows.old rows.new) }
{
    for attribute in attributes {
        push_attribute(alloc, refs, rows, parent, attribute)?;
    }
    Ok(())
}

/// Adds the row of an attribute.
fn push_attribute<'a>(
    alloc: Global,
    refs: &mut References<'a>,
    rows: &mut Rows,
    parent: u32,
    attribute: &'a Attribute,
) -> Result<(), NoMemory>
    requires { CanPush 0x0C CanPushAttribute attribute_bytes (attributes_with parent (attribute.now ∷ [])) refs.old rows.old }
    ensures { OnOk result (Pushes 0x0C IsAttributeRow attribute_bytes (attributes_with parent (attribute.now ∷ [])) refs.old refs.new rows.old rows.new) }
{
    row_of_columns();
    let token = refer_method(alloc, refs, &attribute.constructor)?;
    let value = refer_blob(refs, attribute.value.as_slice())?;
    let constructor = index_of_token(Coded::CustomAttributeType, token);
    rows.push(CUSTOM_ATTRIBUTE, &[parent, constructor, value])?;
    Ok(())
}

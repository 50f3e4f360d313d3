//! The rows of GenericParam (ECMA-335 II.22.20).
ghost use Rattle.std.specs.Prelude.{◌≡◌, ℕ, ◌-◌, ◌^◌, ◌<◌, ◌∷◌, [], false, OnOk};
ghost use Rattle.std.specs.List.{list_any};
ghost use Rattle.image_members.specs.Emptiness.{any_has_item};
ghost use Rattle.image_members.specs.GenericRows.{generics_with, generics_in, generics_at, all_generics, generic_bytes, IsGenericRow, CanPushGeneric};
ghost use Rattle.image_members.specs.Pushing.{Pushes, CanPush};

use crate::emptiness::have_items;
use assembly_tree::{Generic, Generics};
use il_base::{Items, NoMemory};
use image_tokens::members::refer_text;
use image_tokens::references::References;
use image_tokens::tokens::{GENERIC_PARAM, index_of};
use metadata_tables::{Coded, Rows, row_of_columns};

/// A table whose rows have generic parameters, and those of each row.
#[derive(Drop)]
pub struct Parametric<'a> {
    pub table: u8,
    pub of: Items<&'a Generics>,
}

/// Adds the rows of the generic parameters of the first `count` rows of each table: by the number of the
/// row, and then in the order of the tables.
pub fn push_all_generics<'a>(
    refs: &mut References<'a>,
    rows: &mut Rows,
    tables: &[Parametric<'a>],
    count: u32,
) -> Result<(), NoMemory>
    requires count { count < 2 ^ 24 }
    requires can { CanPush 0x2A CanPushGeneric generic_bytes (all_generics tables.now count) refs.old rows.old }
    ensures { OnOk result (Pushes 0x2A IsGenericRow generic_bytes (all_generics tables.now count) refs.old refs.new rows.old rows.new) }
{
    if !have_generics(tables) {
        return Ok(());
    }
    for place in 0..count {
        push_generics_at(refs, rows, tables, place)?;
    }
    Ok(())
}

/// Whether any row of these tables has generic parameters.
pub fn have_generics(tables: &[Parametric]) -> bool
    ensures any { result ≡ list_any (λ table. any_has_item table.of) tables.now }
    ensures none { result ≡ false → (k : ℕ) → generics_at tables.now k ≡ [] }
{
    tables.iter().any(|table| have_items(table.of.as_slice()))
}

/// Adds the rows of the generic parameters of the row at this place in each table.
fn push_generics_at<'a>(
    refs: &mut References<'a>,
    rows: &mut Rows,
    tables: &[Parametric<'a>],
    place: u32,
) -> Result<(), NoMemory>
    requires place { place < 2 ^ 24 - 1 }
    requires can { CanPush 0x2A CanPushGeneric generic_bytes (generics_at tables.now place) refs.old rows.old }
    ensures { OnOk result (Pushes 0x2A IsGenericRow generic_bytes (generics_at tables.now place) refs.old refs.new rows.old rows.new) }
{
    for table in tables {
        push_generics_in(refs, rows, table, place)?;
    }
    Ok(())
}

/// Adds the rows of the generic parameters of the row at this place in a table, where there is such a row.
fn push_generics_in<'a>(
    refs: &mut References<'a>,
    rows: &mut Rows,
    table: &Parametric<'a>,
    place: u32,
) -> Result<(), NoMemory>
    requires place { place < 2 ^ 24 - 1 }
    requires can { CanPush 0x2A CanPushGeneric generic_bytes (generics_in place table.now) refs.old rows.old }
    ensures { OnOk result (Pushes 0x2A IsGenericRow generic_bytes (generics_in place table.now) refs.old refs.new rows.old rows.new) }
{
    let owner = index_of(Coded::TypeOrMethodDef, table.table, place + 1);
    match table.of.get(place as usize) {
        None => Ok(()),
        Some(generics) => push_generics(refs, rows, owner, generics.as_slice()),
    }
}

/// Adds the rows of the generic parameters of one owner, which are numbered from 0.
fn push_generics<'a>(
    refs: &mut References<'a>,
    rows: &mut Rows,
    owner: u32,
    generics: &[Generic],
) -> Result<(), NoMemory>
    requires { CanPush 0x2A CanPushGeneric generic_bytes (generics_with owner 0 generics.now) refs.old rows.old }
    ensures { OnOk result (Pushes 0x2A IsGenericRow generic_bytes (generics_with owner 0 generics.now) refs.old refs.new rows.old rows.new) }
{
    let mut number: u32 = 0;
    for generic in generics {
        push_generic(refs, rows, owner, number, generic)?;
        number += 1;
    }
    Ok(())
}

/// Adds the row of a generic parameter.
fn push_generic<'a>(
    refs: &mut References<'a>,
    rows: &mut Rows,
    owner: u32,
    number: u32,
    generic: &Generic,
) -> Result<(), NoMemory>
    requires { CanPush 0x2A CanPushGeneric generic_bytes (generics_with owner number (generic.now ∷ [])) refs.old rows.old }
    ensures { OnOk result (Pushes 0x2A IsGenericRow generic_bytes (generics_with owner number (generic.now ∷ [])) refs.old refs.new rows.old rows.new) }
{
    row_of_columns();
    let name = refer_text(refs, &generic.name)?;
    let cells = [number, u32::from(generic.flags), owner, name];
    rows.push(GENERIC_PARAM, &cells)?;
    Ok(())
}

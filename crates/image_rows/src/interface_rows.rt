//! The rows of InterfaceImpl (ECMA-335 II.22.23).
ghost use Rattle.std.specs.Prelude.{◌+◌, ◌-◌, ◌^◌, ◌<◌, ◌≤◌, ◌∷◌, [], map, length, sum_by, IfOk, OnOk};
ghost use Rattle.std.specs.List.{AllByRecursion};
ghost use Rattle.assembly_tree.specs.Weight.{owner_weight};
ghost use Rattle.metadata_tables.specs.Encoding.{rows_in};
ghost use Rattle.image_rows.specs.InterfaceRows.{interfaces_from, PushesInterfaces, FindsIndexes, IsRising, CanPushInterfaces};
ghost use Rattle.image_members.specs.Pushing.{AddsRows};
ghost use Rattle.image_tokens.specs.References.{size, AreKnown};
ghost use Rattle.image_tokens.specs.Writable.{IsOwnerWritable};

use il_base::{Items, NoMemory, Numbers};
use image_members::classes::Class;
use image_members::type_indexes::type_index;
use image_tokens::references::References;
use image_tokens::tokens::INTERFACE_IMPL;
use metadata_tables::{Rows, row_of_columns};
use std::alloc::Global;
use type_terms::Owner;

/// Adds the rows of the interfaces of types.
pub fn push_all_interfaces<'a>(
    alloc: Global,
    refs: &mut References<'a>,
    rows: &mut Rows,
    classes: &[Class<'a>],
) -> Result<(), NoMemory>
    requires count { length classes.now < 2 ^ 24 - 2 }
    requires can { CanPushInterfaces (interfaces_from 2 classes.now) refs.old rows.old }
    ensures { OnOk result (PushesInterfaces (interfaces_from 2 classes.now) refs.old refs.new rows.old rows.new) }
{
    let mut row: u32 = 2;
    for class in classes {
        push_interfaces(alloc, refs, rows, row, class.of.implements.as_slice())?;
        row += 1;
    }
    Ok(())
}

/// Adds the rows of the interfaces of the type of a row.
fn push_interfaces<'a>(
    alloc: Global,
    refs: &mut References<'a>,
    rows: &mut Rows,
    row: u32,
    interfaces: &'a [Owner],
) -> Result<(), NoMemory>
    requires { CanPushInterfaces ((row, interfaces.now) ∷ []) refs.old rows.old }
    ensures { OnOk result (PushesInterfaces ((row, interfaces.now) ∷ []) refs.old refs.new rows.old rows.new) }
{
    if interfaces.is_empty() {
        return Ok(());
    }
    let found = indexes_of(alloc, refs, interfaces)?;
    let indexes = rising(alloc, found.as_slice())?;
    push_indexes(rows, row, indexes.as_slice())
}

/// The coded indexes of types.
fn indexes_of<'a>(
    alloc: Global,
    refs: &mut References<'a>,
    owners: &'a [Owner],
) -> Result<Numbers, NoMemory>
    requires known { AreKnown refs.old }
    requires writable { AllByRecursion (IsOwnerWritable refs.old) owners.now }
    requires room { size refs.old + sum_by owner_weight owners.now ≤ 2 ^ 26 }
    ensures { IfOk result (FindsIndexes owners.now refs.old refs.new) }
{
    let mut indexes = Items::new(alloc);
    for owner in owners {
        let index = type_index(alloc, refs, owner)?;
        indexes.push(index)?;
    }
    Ok(indexes)
}

/// The same numbers in rising order.
fn rising(alloc: Global, numbers: &[u32]) -> Result<Vec<u32>, NoMemory>
    ensures { IfOk result (λ sorted. IsRising numbers.now sorted.items) }
{
    let mut sorted = Vec::from_slice(alloc, numbers)?;
    sorted.sort()?;
    Ok(sorted)
}

/// Adds a row of the type of a row for each index.
fn push_indexes(rows: &mut Rows, row: u32, indexes: &[u32]) -> Result<(), NoMemory>
    requires { rows_in rows.old 0x09 + length indexes.now < 2 ^ 24 }
    ensures { OnOk result (AddsRows 0x09 (map (λ index. row ∷ index ∷ []) indexes.now) rows.old rows.new) }
{
    row_of_columns();
    for index in indexes {
        rows.push(INTERFACE_IMPL, &[row, *index])?;
    }
    Ok(())
}

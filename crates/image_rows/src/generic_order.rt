//! The generic parameters in the order of their rows (ECMA-335 II.22.20).
ghost use Rattle.std.specs.Prelude.{◌≡◌, ◌++◌, map, IfOk, OnOk};
ghost use Rattle.image_members.specs.GenericRows.{generic_of, generics_in, generics_at, all_generics};
ghost use Rattle.image_members.specs.Places.{lent};

use assembly_tree::Generic;
use il_base::{Items, NoMemory};
use image_members::generic_rows::{Parametric, have_generics};
use image_members::places::add_all;
use std::alloc::Global;

/// The generic parameters of the first `count` rows of each table: by the number of the row, and then in
/// the order of the tables.
pub fn generics_in_order<'a>(
    alloc: Global,
    tables: &[Parametric<'a>],
    count: u32,
) -> Result<Items<&'a Generic>, NoMemory>
    ensures { IfOk result (λ generics. lent generics ≡ map generic_of (all_generics tables.now count)) }
{
    let mut generics = Items::new(alloc);
    if !have_generics(tables) {
        return Ok(generics);
    }
    for place in 0..count {
        add_generics_at(&mut generics, tables, place)?;
    }
    Ok(generics)
}

/// Adds those of the row at this place in each table.
fn add_generics_at<'a>(
    all: &mut Items<&'a Generic>,
    tables: &[Parametric<'a>],
    place: u32,
) -> Result<(), NoMemory>
    ensures { OnOk result (lent all.new ≡ lent all.old ++ map generic_of (generics_at tables.now place)) }
{
    for table in tables {
        add_generics_in(all, table, place)?;
    }
    Ok(())
}

/// Adds those of the row at this place in a table, where there is such a row.
fn add_generics_in<'a>(
    all: &mut Items<&'a Generic>,
    table: &Parametric<'a>,
    place: u32,
) -> Result<(), NoMemory>
    ensures { OnOk result (lent all.new ≡ lent all.old ++ map generic_of (generics_in place table.now)) }
{
    match table.of.get(place as usize) {
        None => Ok(()),
        Some(generics) => add_all(all, generics.as_slice()),
    }
}

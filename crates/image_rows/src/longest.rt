//! How many rows the longest of some tables has.
ghost use Rattle.std.specs.Prelude.{◌≡◌, ◌^◌, ◌<◌, map};
ghost use Rattle.image_rows.specs.AttributeRows.{tables_of};
ghost use Rattle.image_members.specs.ConstantRows.{with_constants};
ghost use Rattle.image_members.specs.GenericRows.{counted};
ghost use Rattle.image_members.specs.Lists.{longest_of};
ghost use Rattle.image_rows.specs.SemanticsRows.{with_methods};

use crate::attribute_rows::Attributed;
use crate::semantics_rows::Accessing;
use image_members::constant_rows::Valued;
use image_members::generic_rows::Parametric;

/// How many rows the longest of these tables has.
pub fn longest_attributed(tables: &[Attributed]) -> u32
    requires { longest_of (tables_of tables.now) < 2 ^ 24 }
    ensures { result ≡ longest_of (tables_of tables.now) }
{
    let mut longest = 0;
    for table in tables {
        longest = longest.max(table.of.len());
    }
    longest as u32
}

/// How many rows the longest of these tables has.
pub fn longest_parametric(tables: &[Parametric]) -> u32
    requires { longest_of (map counted tables.now) < 2 ^ 24 }
    ensures { result ≡ longest_of (map counted tables.now) }
{
    let mut longest = 0;
    for table in tables {
        longest = longest.max(table.of.len());
    }
    longest as u32
}

/// How many rows the longest of these tables has.
pub fn longest_valued(tables: &[Valued]) -> u32
    requires { longest_of (map with_constants tables.now) < 2 ^ 24 }
    ensures { result ≡ longest_of (map with_constants tables.now) }
{
    let mut longest = 0;
    for table in tables {
        longest = longest.max(table.of.len());
    }
    longest as u32
}

/// How many rows the longest of these tables has.
pub fn longest_accessing(tables: &[Accessing]) -> u32
    requires { longest_of (map with_methods tables.now) < 2 ^ 24 }
    ensures { result ≡ longest_of (map with_methods tables.now) }
{
    let mut longest = 0;
    for table in tables {
        longest = longest.max(table.of.len());
    }
    longest as u32
}

//! The rows of NestedClass and ClassLayout (ECMA-335 II.22.8, II.22.32), each table in the order of the
//! types.
ghost use Rattle.std.specs.Prelude.{◌≡◌, ◌+◌, ◌-◌, ◌^◌, ◌<◌, length, OnOk};
ghost use Rattle.metadata_tables.specs.Encoding.{rows_in};
ghost use Rattle.image_rows.specs.ClassRows.{class_rows, encloser_rows, nested_rows, stated_rows, layout_rows};
ghost use Rattle.image_members.specs.Pushing.{AddsRows};

use assembly_tree::Layout;
use il_base::NoMemory;
use image_members::classes::Class;
use image_tokens::tokens::{CLASS_LAYOUT, NESTED_CLASS};
use metadata_tables::{Rows, row_of_columns};

/// Adds a row of NestedClass for each type that another one nests.
pub fn push_nested<'a>(rows: &mut Rows, classes: &[Class<'a>]) -> Result<(), NoMemory>
    requires count { length classes.now < 2 ^ 24 - 2 }
    requires few { rows_in rows.old 0x29 + length classes.now < 2 ^ 24 }
    ensures { OnOk result (AddsRows 0x29 (class_rows nested_rows classes.now) rows.old rows.new) }
{
    let mut row: u32 = 2;
    for class in classes {
        push_encloser(rows, row, class.encloser)?;
        row += 1;
    }
    Ok(())
}

/// Adds the row of a type in its encloser, where it has one.
fn push_encloser(rows: &mut Rows, row: u32, encloser: u32) -> Result<(), NoMemory>
    requires { rows_in rows.old 0x29 < 2 ^ 24 - 1 }
    ensures { OnOk result (AddsRows 0x29 (encloser_rows row encloser) rows.old rows.new) }
{
    if encloser == 0 {
        return Ok(());
    }
    row_of_columns();
    rows.push(NESTED_CLASS, &[row, encloser])?;
    Ok(())
}

/// Adds a row of ClassLayout for each type that has a layout.
pub fn push_layouts<'a>(rows: &mut Rows, classes: &[Class<'a>]) -> Result<(), NoMemory>
    requires count { length classes.now < 2 ^ 24 - 2 }
    requires few { rows_in rows.old 0x0F + length classes.now < 2 ^ 24 }
    ensures { OnOk result (AddsRows 0x0F (class_rows layout_rows classes.now) rows.old rows.new) }
{
    let mut row: u32 = 2;
    for class in classes {
        push_layout(rows, row, class.of.layout)?;
        row += 1;
    }
    Ok(())
}

/// Adds the row of the layout of a type, where it has one.
fn push_layout(rows: &mut Rows, row: u32, layout: Option<Layout>) -> Result<(), NoMemory>
    requires { rows_in rows.old 0x0F < 2 ^ 24 - 1 }
    ensures { OnOk result (AddsRows 0x0F (stated_rows row layout) rows.old rows.new) }
{
    match layout {
        None => Ok(()),
        Some(of) => {
            row_of_columns();
            rows.push(CLASS_LAYOUT, &[u32::from(of.pack), of.size, row])?;
            Ok(())
        }
    }
}

//! All that an image is made of before it is laid out (ECMA-335 II.22, II.24.2, II.25.4).
ghost use Rattle.std.specs.Prelude.{◌≡◌, ◌^◌, ◌≤◌, [], OnOk};
ghost use Rattle.assembly_tree.specs.Weight.{weight_of};
ghost use Rattle.image_tables.specs.OwnedPart.{IsNothing};
ghost use Rattle.image_members.specs.Classes.{AreClasses};
ghost use Rattle.image_members.specs.Ordered.{IsOrdered};
ghost use Rattle.image_writer.specs.Beginning.{DeclaresAll};
ghost use Rattle.image_writer.specs.Contents.{HasNoRows, IsContents};

use assembly_tree::Assembly;
use il_base::{Bytes, NoMemory};
use image_layout::push_references;
use image_members::classes::Class;
use image_members::order::Ordered;
use image_tables::filling::fill;
use image_tables::owned_part::Nothing;
use image_tokens::references::References;
use laws_tree_weights::laws::{rows_are_few, weight_is_enough};
use metadata_tables::Rows;
use std::alloc::Global;

/// Adds all rows and the code, where there are none: what an image of the assembly, whose types are `classes`, is made of.
pub(crate) fn fill_all<'a>(
    alloc: Global,
    refs: &mut References<'a>,
    rows: &mut Rows,
    code: &mut Bytes,
    a: &'a Assembly,
    classes: &[Class<'a>],
    ordered: &Ordered<'a>,
    none: &'a Nothing,
) -> Result<(), NoMemory>
    requires weight { weight_of a.now ≤ 2 ^ 26 }
    requires classes { AreClasses 0 2 a.now.types classes.now }
    requires ordered { IsOrdered a.now classes.now ordered.now }
    requires none { IsNothing none.now }
    requires declared { DeclaresAll a.now classes.now refs.old }
    requires no_rows { HasNoRows rows.old }
    requires no_code { code.old ≡ [] }
    ensures { OnOk result (IsContents a.now classes.now refs.new rows.new code.new) }
{
    rows_are_few();
    weight_is_enough();
    fill(alloc, refs, rows, code, a, classes, ordered, none)?;
    push_references(rows, refs)?;
    Ok(())
}

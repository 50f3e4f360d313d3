//! All rows of an image, with its code (ECMA-335 II.22, II.25.4).
ghost use Rattle.std.specs.Prelude.{◌+◌, ◌^◌, ◌≤◌, length, OnOk};
ghost use Rattle.image_tokens.specs.References.{size, Grows};
ghost use Rattle.image_members.specs.Ordered.{IsOrdered};
ghost use Rattle.image_tables.specs.Filling.{filled_bytes, IsReady, IsFull, Lengthens};
ghost use Rattle.image_tables.specs.OwnedPart.{IsNothing};
ghost use Rattle.laws_tree_weights.specs.ImageBytes.{code_bytes};

use crate::field_part::push_field_part;
use crate::manifest_part::push_manifest;
use crate::method_part::push_method_part;
use crate::owned_part::{Nothing, push_owned_part};
use crate::property_part::push_property_part;
use crate::type_part::push_type_part;
use assembly_tree::Assembly;
use il_base::{Bytes, NoMemory};
use image_members::classes::Class;
use image_members::order::Ordered;
use image_tokens::references::References;
use metadata_tables::Rows;
use std::alloc::Global;

/// Adds all rows but those of references, and the code.
pub fn fill<'a>(
    alloc: Global,
    refs: &mut References<'a>,
    rows: &mut Rows,
    code: &mut Bytes,
    a: &'a Assembly,
    classes: &[Class<'a>],
    ordered: &Ordered<'a>,
    none: &'a Nothing,
) -> Result<(), NoMemory>
    requires ready { IsReady 0 (filled_bytes a.now classes.now) a.now classes.now refs.old rows.old }
    requires ordered { IsOrdered a.now classes.now ordered.now }
    requires none { IsNothing none.now }
    requires long { length code.old + code_bytes a.now classes.now ≤ 2 ^ 26 }
    ensures grows { OnOk result (Grows refs.old refs.new) }
    ensures full { OnOk result (IsFull a.now classes.now refs.new rows.new code.new) }
    ensures room { OnOk result (size refs.new ≤ size refs.old + filled_bytes a.now classes.now) }
    ensures lengthens { OnOk result (Lengthens (code_bytes a.now classes.now) code.old code.new) }
{
    push_manifest(refs, rows, a)?;
    push_method_part(alloc, refs, rows, code, a, classes, ordered)?;
    push_type_part(alloc, refs, rows, a, classes, ordered)?;
    push_field_part(refs, rows, code, ordered.fields.as_slice())?;
    push_property_part(alloc, refs, rows, a, classes, ordered)?;
    push_owned_part(alloc, refs, rows, a, classes, ordered, none)?;
    Ok(())
}

//! The rows of Property (ECMA-335 II.22.34).
ghost use Rattle.std.specs.Prelude.{◌≡◌, ◌∷◌, [], OnOk};
ghost use Rattle.image_members.specs.Places.{lent};
ghost use Rattle.image_rows.specs.PropertyRows.{property_flags, property_bytes, IsPropertyRow, CanPushProperty};
ghost use Rattle.image_members.specs.Pushing.{Pushes, CanPush};

use assembly_tree::Property;
use il_base::NoMemory;
use image_tokens::members::refer_text;
use image_tokens::references::References;
use image_tokens::signatures::property_signature;
use image_tokens::tokens::PROPERTY;
use metadata_tables::{Rows, row_of_columns};
use std::alloc::Global;

/// Adds the rows of properties.
pub fn push_properties<'a>(
    alloc: Global,
    refs: &mut References<'a>,
    rows: &mut Rows,
    properties: &[&'a Property],
) -> Result<(), NoMemory>
    requires { CanPush 0x17 CanPushProperty property_bytes (lent properties.now) refs.old rows.old }
    ensures { OnOk result (Pushes 0x17 IsPropertyRow property_bytes (lent properties.now) refs.old refs.new rows.old rows.new) }
{
    for property in properties {
        push_property(alloc, refs, rows, property)?;
    }
    Ok(())
}

/// Adds the row of a property.
fn push_property<'a>(
    alloc: Global,
    refs: &mut References<'a>,
    rows: &mut Rows,
    property: &'a Property,
) -> Result<(), NoMemory>
    requires { CanPush 0x17 CanPushProperty property_bytes (property.now ∷ []) refs.old rows.old }
    ensures { OnOk result (Pushes 0x17 IsPropertyRow property_bytes (property.now ∷ []) refs.old refs.new rows.old rows.new) }
{
    row_of_columns();
    let name = refer_text(refs, &property.name)?;
    let signature = property_signature(alloc, refs, &property.sig)?;
    let flags = flags_of(property);
    rows.push(PROPERTY, &[u32::from(flags), name, signature])?;
    Ok(())
}

/// The flags, with HasDefault where there is a constant (II.23.1.14).
fn flags_of(property: &Property) -> u16
    ensures { result ≡ property_flags property.now }
{
    let constant = if property.constant.is_some() {
        0x1000
    } else {
        0
    };
    property.flags | constant
}

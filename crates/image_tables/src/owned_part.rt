//! The rows of what other rows own: generic parameters, bounds, constants and attributes (ECMA-335 II.22.9,
//! II.22.10, II.22.20, II.22.21).
ghost use Rattle.std.specs.Prelude.{◌≡◌, ◌^◌, ◌<◌, map, IfOk, OnOk};
ghost use Rattle.image_rows.specs.AttributeRows.{tables_of, attribute_bytes, IsAttributeRow, CanPushAttribute};
ghost use Rattle.image_members.specs.ConstantRows.{with_constants, constant_bytes, IsConstantRow, CanPushConstant};
ghost use Rattle.image_rows.specs.Filled.{HoldsOwned};
ghost use Rattle.image_members.specs.GenericRows.{counted, generic_of, generic_bytes, IsGenericRow, CanPushGeneric};
ghost use Rattle.image_members.specs.Lists.{longest_of};
ghost use Rattle.image_members.specs.Ordered.{IsOrdered};
ghost use Rattle.image_members.specs.Places.{lent};
ghost use Rattle.image_members.specs.Pushing.{Pushes, CanPush};
ghost use Rattle.image_tables.specs.Filling.{IsReady, Fills};
ghost use Rattle.image_tables.specs.OwnedPart.{attributes_in, constants_in, generics_in, IsNothing};
ghost use Rattle.laws_tree_weights.specs.ImageBytes.{owned_bytes};

use assembly_tree::{Assembly, Attributes, Generic, Generics};
use il_base::{Items, NoMemory};
use image_members::classes::Class;
use image_members::constant_rows::{Valued, push_all_constants};
use image_members::generic_rows::{Parametric, have_generics, push_all_generics};
use image_members::order::Ordered;
use image_rows::attribute_rows::{Attributed, push_all_attributes};
use image_rows::bound_rows::push_all_bounds;
use image_rows::generic_order::generics_in_order;
use image_rows::longest::{longest_attributed, longest_parametric, longest_valued};
use image_rows::owned_lists::{attribute_tables, constant_tables, generic_tables};
use image_tokens::references::References;
use metadata_tables::Rows;
use std::alloc::Global;

/// What `<Module>` owns: no attributes and no generic parameters.
#[derive(Drop)]
pub struct Nothing {
    pub attributes: Attributes,
    pub generics: Generics,
}

/// Adds the rows of generic parameters and their bounds, of constants and of attributes.
pub fn push_owned_part<'a>(
    alloc: Global,
    refs: &mut References<'a>,
    rows: &mut Rows,
    a: &'a Assembly,
    _classes: &[Class<'a>],
    ordered: &Ordered<'a>,
    none: &'a Nothing,
) -> Result<(), NoMemory>
    requires ready { IsReady 5 (owned_bytes a.now _classes.now) a.now _classes.now refs.old rows.old }
    requires ordered { IsOrdered a.now _classes.now ordered.now }
    requires none { IsNothing none.now }
    ensures { OnOk result (Fills 5 (owned_bytes a.now _classes.now) (HoldsOwned a.now _classes.now) refs.old refs.new rows.old rows.new) }
{
    let tables = generic_tables(alloc, ordered, &none.generics)?;
    let generics = push_generic_rows(alloc, refs, rows, tables.as_slice())?;
    push_all_bounds(alloc, refs, rows, generics.as_slice())?;
    let valued = constant_tables(alloc, ordered)?;
    push_constant_rows(alloc, refs, rows, valued.as_slice())?;
    let attributed = attribute_tables(alloc, a, ordered, generics.as_slice(), &none.attributes)?;
    push_attribute_rows(alloc, refs, rows, attributed.as_slice())?;
    Ok(())
}

/// Adds the rows of the generic parameters of these tables, and answers them in the order of their rows.
fn push_generic_rows<'a>(
    alloc: Global,
    refs: &mut References<'a>,
    rows: &mut Rows,
    tables: &[Parametric<'a>],
) -> Result<Items<&'a Generic>, NoMemory>
    requires owners { longest_of (map counted tables.now) < 2 ^ 23 }
    requires can { CanPush 0x2A CanPushGeneric generic_bytes (generics_in (map counted tables.now)) refs.old rows.old }
    ensures pushes { OnOk result (Pushes 0x2A IsGenericRow generic_bytes (generics_in (map counted tables.now)) refs.old refs.new rows.old rows.new) }
    ensures order { IfOk result (λ generics. lent generics ≡ map generic_of (generics_in (map counted tables.now))) }
{
    if !have_generics(tables) {
        return Ok(Items::new(alloc));
    }
    let count = longest_parametric(tables);
    push_all_generics(refs, rows, tables, count)?;
    let generics = generics_in_order(alloc, tables, count)?;
    Ok(generics)
}

/// Adds the rows of the constants of these tables.
fn push_constant_rows<'a>(
    alloc: Global,
    refs: &mut References<'a>,
    rows: &mut Rows,
    tables: &[Valued<'a>],
) -> Result<(), NoMemory>
    requires owners { longest_of (map with_constants tables.now) < 2 ^ 23 }
    requires can { CanPush 0x0B CanPushConstant constant_bytes (constants_in (map with_constants tables.now)) refs.old rows.old }
    ensures { OnOk result (Pushes 0x0B IsConstantRow constant_bytes (constants_in (map with_constants tables.now)) refs.old refs.new rows.old rows.new) }
{
    let count = longest_valued(tables);
    push_all_constants(alloc, refs, rows, tables, count)?;
    Ok(())
}

/// Adds the rows of the attributes of these tables.
fn push_attribute_rows<'a>(
    alloc: Global,
    refs: &mut References<'a>,
    rows: &mut Rows,
    tables: &[Attributed<'a>],
) -> Result<(), NoMemory>
    requires owners { longest_of (tables_of tables.now) < 2 ^ 23 }
    requires can { CanPush 0x0C CanPushAttribute attribute_bytes (attributes_in (tables_of tables.now)) refs.old rows.old }
    ensures { OnOk result (Pushes 0x0C IsAttributeRow attribute_bytes (attributes_in (tables_of tables.now)) refs.old refs.new rows.old rows.new) }
{
    let count = longest_attributed(tables);
    push_all_attributes(alloc, refs, rows, tables, count)?;
    Ok(())
}

//! The tables whose rows own attributes, generic parameters or constants, each with what its rows own, in the
//! order of their tags in the coded index by which owners are named (ECMA-335 II.22, II.24.2.6).
ghost use Rattle.std.specs.Prelude.{◌≡◌, ◌∷◌, [], ◌++◌, List, map, IfOk, OnOk};
ghost use Rattle.assembly_tree.specs.declared.assembly.Assembly.{Assembly};
ghost use Rattle.image_rows.specs.AttributeRows.{tables_of};
ghost use Rattle.image_members.specs.ConstantRows.{with_constants};
ghost use Rattle.image_members.specs.GenericRows.{counted};
ghost use Rattle.image_members.specs.Lists.{attribute_lists, constant_lists, generic_lists, generics_in};
ghost use Rattle.image_members.specs.Ordered.{IsOrdered};
ghost use Rattle.image_members.specs.Places.{lent};
ghost use Rattle.image_members.specs.declared.classes.Class.{Class};

use crate::attribute_rows::Attributed;
use assembly_tree::{Assembly, Attributes, Generic, Generics};
use il_base::{Items, NoMemory};
use image_members::carrying::{Carries, all_carried, carried_after};
use image_members::constant_rows::Valued;
use image_members::generic_rows::Parametric;
use image_members::order::Ordered;
use image_tokens::tokens::{
    ASSEMBLY, EVENT, FIELD, GENERIC_PARAM, METHOD_DEF, MODULE, PARAM, PROPERTY, TYPE_DEF,
};
use std::alloc::Global;

/// The types and the methods, with the generic parameters of each; `none` are those of `<Module>`.
pub fn generic_tables<'a>(
    alloc: Global,
    ordered: &Ordered<'a>,
    none: &'a Generics,
) -> Result<Items<Parametric<'a>>, NoMemory>
    requires { none.now ≡ [] }
    ensures { (a : Assembly) (classes : List Class) → IsOrdered a classes ordered.now → IfOk result (λ tables. map counted tables ≡ generic_lists a classes) }
{
    let mut tables = Items::new(alloc);
    let types = carried_after(alloc, none, ordered.types.as_slice())?;
    tables.push(Parametric {
        table: TYPE_DEF,
        of: types,
    })?;
    let methods = all_carried(alloc, ordered.methods.as_slice())?;
    tables.push(Parametric {
        table: METHOD_DEF,
        of: methods,
    })?;
    Ok(tables)
}

/// All that have attributes, with the attributes of each: `generics` are the generic parameters in the order
/// of their rows, and `none` the attributes of `<Module>`.
pub fn attribute_tables<'a>(
    alloc: Global,
    a: &'a Assembly,
    ordered: &Ordered<'a>,
    generics: &[&'a Generic],
    none: &'a Attributes,
) -> Result<Items<Attributed<'a>>, NoMemory>
    requires { none.now ≡ [] }
    ensures { (classes : List Class) → IsOrdered a.now classes ordered.now → lent generics.now ≡ generics_in a.now classes → IfOk result (λ tables. tables_of tables ≡ attribute_lists a.now classes) }
{
    let mut tables = Items::new(alloc);
    add_attributed(alloc, &mut tables, METHOD_DEF, ordered.methods.as_slice())?;
    add_attributed(alloc, &mut tables, FIELD, ordered.fields.as_slice())?;
    let types = carried_after(alloc, none, ordered.types.as_slice())?;
    tables.push(Attributed {
        table: TYPE_DEF,
        of: types,
    })?;
    add_attributed(alloc, &mut tables, PARAM, ordered.params.as_slice())?;
    add_single(alloc, &mut tables, MODULE, &a.manifest.module_attributes)?;
    add_attributed(alloc, &mut tables, PROPERTY, ordered.properties.as_slice())?;
    add_attributed(alloc, &mut tables, EVENT, ordered.events.as_slice())?;
    add_single(alloc, &mut tables, ASSEMBLY, &a.manifest.attributes)?;
    add_attributed(alloc, &mut tables, GENERIC_PARAM, generics)?;
    Ok(tables)
}

/// Adds a table with the attributes of each of its rows.
fn add_attributed<'a, T: Carries<Attributes>>(
    alloc: Global,
    tables: &mut Items<Attributed<'a>>,
    table: u8,
    carriers: &[&'a T],
) -> Result<(), NoMemory>
    ensures { OnOk result (tables_of tables.new ≡ tables_of tables.old ++ (table, map T.value_of (lent carriers.now)) ∷ []) }
{
    let of = all_carried(alloc, carriers)?;
    tables.push(Attributed { table, of })
}

/// Adds a table of one row, with its attributes.
fn add_single<'a>(
    alloc: Global,
    tables: &mut Items<Attributed<'a>>,
    table: u8,
    attributes: &'a Attributes,
) -> Result<(), NoMemory>
    ensures { OnOk result (tables_of tables.new ≡ tables_of tables.old ++ (table, attributes.now ∷ []) ∷ []) }
{
    let of = Items::from_slice(alloc, &[attributes])?;
    tables.push(Attributed { table, of })
}

/// The fields, the parameters and the properties, with the constant of each that has one.
pub fn constant_tables<'a>(
    alloc: Global,
    ordered: &Ordered<'a>,
) -> Result<Items<Valued<'a>>, NoMemory>
    ensures { (a : Assembly) (classes : List Class) → IsOrdered a classes ordered.now → IfOk result (λ tables. map with_constants tables ≡ constant_lists a classes) }
{
    let mut tables = Items::new(alloc);
    let fields = all_carried(alloc, ordered.fields.as_slice())?;
    tables.push(Valued {
        table: FIELD,
        of: fields,
    })?;
    let params = all_carried(alloc, ordered.params.as_slice())?;
    tables.push(Valued {
        table: PARAM,
        of: params,
    })?;
    let properties = all_carried(alloc, ordered.properties.as_slice())?;
    tables.push(Valued {
        table: PROPERTY,
        of: properties,
    })?;
    Ok(tables)
}

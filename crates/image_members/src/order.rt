//! All that is declared, in the order of its rows (ECMA-335 II.22.37).
ghost use Rattle.std.specs.Prelude.{[], IfOk, OnOk};
ghost use Rattle.image_members.specs.Ordered.{AddsMembers, IsOrdered};

use crate::classes::Class;
use crate::places::{add_all, add_methods};
use assembly_tree::{Assembly, Event, Field, Method, Param, Property, TypeDef};
use il_base::{Items, NoMemory};
use std::alloc::Global;

/// What an assembly declares, each kind in the order of its rows; `types` has no `<Module>`.
#[derive(Drop)]
pub struct Ordered<'a> {
    pub types: Items<&'a TypeDef>,
    pub fields: Items<&'a Field>,
    pub methods: Items<&'a Method>,
    pub params: Items<&'a Param>,
    pub properties: Items<&'a Property>,
    pub events: Items<&'a Event>,
}

/// What the assembly, whose types are these, declares. One walk over the types serves all lists.
pub fn in_order<'a>(
    alloc: Global,
    a: &'a Assembly,
    classes: &[Class<'a>],
) -> Result<Ordered<'a>, NoMemory>
    ensures { IfOk result (IsOrdered a.now classes.now) }
{
    let mut ordered = members_of_module(alloc, a, classes.len())?;
    for class in classes {
        add_members(&mut ordered, class.of)?;
    }
    Ok(ordered)
}

/// What `<Module>` has, and room for so many types.
fn members_of_module<'a>(
    alloc: Global,
    a: &'a Assembly,
    types: usize,
) -> Result<Ordered<'a>, NoMemory>
    ensures { IfOk result (IsOrdered a.now []) }
{
    let mut fields = Items::new(alloc);
    add_all(&mut fields, a.fields.as_slice())?;
    // Most types have a method.
    let mut methods = Items::with_capacity(alloc, types)?;
    let mut params = Items::new(alloc);
    add_methods(&mut methods, &mut params, a.methods.as_slice())?;
    let types = Items::with_capacity(alloc, types)?;
    Ok(Ordered {
        types,
        fields,
        methods,
        params,
        properties: Items::new(alloc),
        events: Items::new(alloc),
    })
}

/// Adds a type, and what it has.
fn add_members<'a>(ordered: &mut Ordered<'a>, of: &'a TypeDef) -> Result<(), NoMemory>
    ensures { OnOk result (AddsMembers of.now ordered.old ordered.new) }
{
    ordered.types.push(of)?;
    add_all(&mut ordered.fields, of.fields.as_slice())?;
    add_methods(
        &mut ordered.methods,
        &mut ordered.params,
        of.methods.as_slice(),
    )?;
    add_all(&mut ordered.properties, of.properties.as_slice())?;
    add_all(&mut ordered.events, of.events.as_slice())?;
    Ok(())
}

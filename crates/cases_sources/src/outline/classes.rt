//! Classes, and what stands outside of them.

use crate::outline::items::{push_flags, push_number};
use crate::outline::members::{
    push_attributes, push_event, push_field, push_generic, push_method_parts, push_property,
};
use crate::outline::terms::{push_id, push_owner};
use assembly_tree::{Assembly, TypeDef};
use il_base::NoMemory;

/// The fields and methods outside of any class, and the classes.
pub fn push_contents(out: &mut String, a: &Assembly) -> Result<(), NoMemory> {
    for field in a.fields.as_slice() {
        push_field(out, field)?;
    }
    for method in a.methods.as_slice() {
        push_method_parts(out, method)?;
    }
    push_classes(out, a.types.as_slice())
}

#[cycle(classes)]
fn push_classes(out: &mut String, classes: &[TypeDef]) -> Result<(), NoMemory> {
    for class in classes {
        push_class(out, class)?;
    }
    Ok(())
}

// A class: its head, its members, the classes that it nests, and an end.
#[cycle(classes)]
fn push_class(out: &mut String, class: &TypeDef) -> Result<(), NoMemory> {
    push_head(out, class)?;
    push_members(out, class)?;
    push_classes(out, class.nested.as_slice())?;
    out.push_str("end\n")?;
    Ok(())
}

fn push_head(out: &mut String, class: &TypeDef) -> Result<(), NoMemory> {
    push_flags(out, "class ", class.flags)?;
    out.push(' ')?;
    push_id(out, &class.id)?;
    if let Some(base) = &class.extends {
        out.push_str(" extends ")?;
        push_owner(out, base)?;
    }
    for interface in class.implements.as_slice() {
        out.push_str(" implements ")?;
        push_owner(out, interface)?;
    }
    if let Some(layout) = class.layout {
        push_number(out, " pack ", u64::from(layout.pack))?;
        push_number(out, " size ", u64::from(layout.size))?;
    }
    out.push('\n')?;
    push_attributes(out, &class.attributes)?;
    for generic in class.generics.as_slice() {
        push_generic(out, generic)?;
    }
    Ok(())
}

fn push_members(out: &mut String, class: &TypeDef) -> Result<(), NoMemory> {
    for field in class.fields.as_slice() {
        push_field(out, field)?;
    }
    for method in class.methods.as_slice() {
        push_method_parts(out, method)?;
    }
    for property in class.properties.as_slice() {
        push_property(out, property)?;
    }
    for event in class.events.as_slice() {
        push_event(out, event)?;
    }
    Ok(())
}

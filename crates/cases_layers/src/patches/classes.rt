//! Changes of classes, and of their properties and events.

use super::{Changeable, attributes_of, patch_last, put};
use crate::fault::Fault;
use crate::terms::{outside, text_of};
use crate::values::{number16, number32, two};
use assembly_tree::{Accessor, Accessors, Event, Layout, Property, TypeDef, TypeDefs};
use il_lists::{Items, NoMemory};
use std::alloc::Global;
use type_terms::Owner;

impl Changeable for TypeDef {
    fn change(&mut self, alloc: Global, field: &str, value: &str) -> Result<(), Fault> {
        match field {
            "space" => put(&mut self.id.space, text_of(alloc, value)),
            "name" => put(&mut self.id.name, text_of(alloc, value)),
            "flags" => put(&mut self.flags, number32(value)),
            "pack" => put(&mut self.layout, packed(value)),
            "base" => put(&mut self.extends, base(alloc, value)),
            "implements" => Ok(self.implements.push(outside(alloc, value)?)?),
            "attribute" => put(&mut self.attributes, attributes_of(alloc, value)),
            "nested" => patch_nested(alloc, &mut self.nested, value),
            "property" => patch_last(alloc, &mut self.properties, value),
            "event" => patch_last(alloc, &mut self.events, value),
            _ => Err(Fault::Meaningless),
        }
    }
}

/// Changes the class that a class nests last: its name or its base.
fn patch_nested(alloc: Global, nested: &mut TypeDefs, value: &str) -> Result<(), Fault> {
    let (field, value) = two(value)?;
    let Some(mut of) = nested.pop() else {
        return Err(Fault::Meaningless);
    };
    let patched = match field {
        "name" => put(&mut of.id.name, text_of(alloc, value)),
        "base" => put(&mut of.extends, base(alloc, value)),
        _ => Err(Fault::Meaningless),
    };
    nested.push(of)?;
    patched
}

fn packed(value: &str) -> Result<Option<Layout>, Fault> {
    Ok(Some(Layout {
        pack: number16(value)?,
        size: u32::MAX,
    }))
}

/// `none`, or the type of that name in the first extern.
fn base(alloc: Global, value: &str) -> Result<Option<Owner>, NoMemory> {
    match value {
        "none" => Ok(None),
        _ => Ok(Some(outside(alloc, value)?)),
    }
}

impl Changeable for Property {
    fn change(&mut self, alloc: Global, field: &str, value: &str) -> Result<(), Fault> {
        match field {
            "name" => put(&mut self.name, text_of(alloc, value)),
            "flags" => put(&mut self.flags, number16(value)),
            "generic" => put(&mut self.sig.generic, number32(value)),
            "explicit" => Ok(self.sig.explicit_this = value == "yes"),
            "vararg" => Ok(self.sig.vararg = value == "yes"),
            "accessor" => put(&mut self.accessors, accessors(alloc, value)),
            "attribute" => put(&mut self.attributes, attributes_of(alloc, value)),
            _ => Err(Fault::Meaningless),
        }
    }
}

/// One accessor: `KIND METHOD`.
fn accessors(alloc: Global, value: &str) -> Result<Accessors, Fault> {
    let (kind, method) = two(value)?;
    let accessor = Accessor {
        kind: number16(kind)?,
        method: number32(method)?,
    };
    Ok(Items::one(alloc, accessor)?)
}

impl Changeable for Event {
    fn change(&mut self, alloc: Global, field: &str, value: &str) -> Result<(), Fault> {
        match field {
            "name" => put(&mut self.name, text_of(alloc, value)),
            "of" => put(&mut self.of, outside(alloc, value)),
            "accessor" => put(&mut self.accessors, accessors(alloc, value)),
            "attribute" => put(&mut self.attributes, attributes_of(alloc, value)),
            _ => Err(Fault::Meaningless),
        }
    }
}

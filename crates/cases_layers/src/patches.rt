//! Changes of trees, by which they come to break one condition of a well-formed tree each. A change is `PART.FIELD VALUE`. What is
//! changed of several things alike is the last one: of externs, of the types, fields and methods that stand in no class, of a class's
//! properties and events, of a method's parameters, and of a body's instructions and clauses.

mod bodies;
mod classes;
mod members;

use crate::fault::Fault;
use crate::terms::{method_of, text_of};
use crate::values::{number32, two};
use assembly_tree::{Assembly, Attribute, Attributes, ExternAssembly, Manifest};
use il_lists::Items;
use std::alloc::Global;

/// What can be changed, field by field.
pub trait Changeable {
    /// Gives a field another value, as words spell it.
    fn change(&mut self, alloc: Global, field: &str, value: &str) -> Result<(), Fault>;
}

/// Makes a change.
pub fn patch(alloc: Global, a: &mut Assembly, change: &str) -> Result<(), Fault> {
    let Some((part, rest)) = change.split_once('.') else {
        return Err(Fault::Meaningless);
    };
    match part {
        "manifest" => patch_fields(alloc, &mut a.manifest, rest),
        "extern" => patch_last(alloc, &mut a.externs, rest),
        "class" => patch_last(alloc, &mut a.types, rest),
        "property" | "event" => patch_of_last(alloc, &mut a.types, part, rest),
        "field" => patch_last(alloc, &mut a.fields, rest),
        "method" => patch_last(alloc, &mut a.methods, rest),
        "generic" => patch_of_last(alloc, &mut a.methods, "generics", rest),
        "param" => patch_of_last(alloc, &mut a.methods, "params", rest),
        "body" | "ins" | "clause" => patch_of_last(alloc, &mut a.methods, part, rest),
        _ => Err(Fault::Meaningless),
    }
}

/// Changes a thing: `FIELD VALUE`.
fn patch_fields<T: Changeable>(alloc: Global, of: &mut T, rest: &str) -> Result<(), Fault> {
    let (field, value) = two(rest)?;
    of.change(alloc, field, value)
}

/// Changes the last of some things: `FIELD VALUE`.
fn patch_last<T: Changeable + Drop>(
    alloc: Global,
    all: &mut Items<T>,
    rest: &str,
) -> Result<(), Fault> {
    let (field, value) = two(rest)?;
    patch_of_last(alloc, all, field, value)
}

/// Changes a field of the last of some things.
fn patch_of_last<T: Changeable + Drop>(
    alloc: Global,
    all: &mut Items<T>,
    field: &str,
    value: &str,
) -> Result<(), Fault> {
    let Some(mut of) = all.pop() else {
        return Err(Fault::Meaningless);
    };
    let patched = of.change(alloc, field, value);
    all.push(of)?;
    patched
}

/// Changes a field of what is there, if it is.
fn patch_some<T: Changeable + Drop>(
    alloc: Global,
    place: &mut Option<T>,
    field: &str,
    value: &str,
) -> Result<(), Fault> {
    let Some(mut of) = place.take() else {
        return Err(Fault::Meaningless);
    };
    let patched = of.change(alloc, field, value);
    *place = Some(of);
    patched
}

/// Puts what was made into its place, where it could be made.
fn put<T: Drop, E>(place: &mut T, made: Result<T, E>) -> Result<(), Fault>
where
    Fault: From<E>,
{
    *place = made?;
    Ok(())
}

/// Attributes that are one, whose constructor is spelled so.
fn attributes_of(alloc: Global, value: &str) -> Result<Attributes, Fault> {
    let constructor = method_of(alloc, value)?;
    let value = Items::new(alloc);
    Ok(Items::one(alloc, Attribute { constructor, value })?)
}

impl Changeable for Manifest {
    fn change(&mut self, alloc: Global, field: &str, value: &str) -> Result<(), Fault> {
        match field {
            "name" => put(&mut self.name, text_of(alloc, value)),
            "culture" => put(&mut self.culture, text_of(alloc, value)),
            "module" => put(&mut self.module, text_of(alloc, value)),
            "base" => put(&mut self.image_base, number32(value)),
            "alignment" => put(&mut self.file_alignment, number32(value)),
            "flags" => put(&mut self.cor_flags, number32(value)),
            "attribute" => put(&mut self.attributes, attributes_of(alloc, value)),
            "module_attribute" => put(&mut self.module_attributes, attributes_of(alloc, value)),
            _ => Err(Fault::Meaningless),
        }
    }
}

impl Changeable for ExternAssembly {
    fn change(&mut self, alloc: Global, field: &str, value: &str) -> Result<(), Fault> {
        match field {
            "name" => put(&mut self.name, text_of(alloc, value)),
            "culture" => put(&mut self.culture, text_of(alloc, value)),
            _ => Err(Fault::Meaningless),
        }
    }
}

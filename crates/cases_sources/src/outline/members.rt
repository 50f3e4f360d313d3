//! Members of classes.

use crate::outline::bodies::push_body;
use crate::outline::items::{push_bytes, push_flags, push_number, push_units};
use crate::outline::terms::{push_method, push_owner, push_params, push_result, push_type};
use assembly_tree::{
    Accessors, Attributes, Constant, Event, Field, Generic, Method, Param, Property,
};
use il_base::NoMemory;

/// A line for each attribute.
pub(super) fn push_attributes(out: &mut String, all: &Attributes) -> Result<(), NoMemory> {
    for attribute in all.as_slice() {
        out.push_str("custom ")?;
        push_method(out, &attribute.constructor)?;
        push_bytes(out, " ", attribute.value.as_slice())?;
        out.push('\n')?;
    }
    Ok(())
}

/// A generic parameter with its bounds and attributes.
pub(super) fn push_generic(out: &mut String, generic: &Generic) -> Result<(), NoMemory> {
    push_flags(out, "generic ", u32::from(generic.flags))?;
    out.push(' ')?;
    out.push_str(generic.name.as_str())?;
    for bound in generic.bounds.as_slice() {
        out.push_str(" : ")?;
        push_owner(out, bound)?;
    }
    out.push('\n')?;
    push_attributes(out, &generic.attributes)
}

// A constant, where there is one.
fn push_constant(out: &mut String, constant: &Option<Constant>) -> Result<(), NoMemory> {
    let Some(constant) = constant else {
        return Ok(());
    };
    out.push_str(" = ")?;
    match constant {
        Constant::Bool(value) => out.push_str(if *value { "true" } else { "false" })?,
        Constant::Char(unit) => push_number(out, "char ", u64::from(*unit))?,
        Constant::Int { of, value } => write!(out, "{of:?} {value}")?,
        Constant::Real4(bits) => write!(out, "R4 {bits:x}")?,
        Constant::Real8(bits) => write!(out, "R8 {bits:x}")?,
        Constant::Str(units) => push_units(out, units.as_slice())?,
        Constant::Null => out.push_str("null")?,
    }
    Ok(())
}

/// A field with its attributes.
pub(super) fn push_field(out: &mut String, field: &Field) -> Result<(), NoMemory> {
    push_flags(out, "field ", u32::from(field.flags))?;
    out.push(' ')?;
    push_type(out, &field.of)?;
    out.push(' ')?;
    out.push_str(field.name.as_str())?;
    push_constant(out, &field.constant)?;
    if let Some(offset) = field.offset {
        push_number(out, " offset ", u64::from(offset))?;
    }
    if let Some(content) = &field.content {
        push_bytes(out, " data ", content.as_slice())?;
    }
    out.push('\n')?;
    push_attributes(out, &field.attributes)
}

/// A method with all that it holds.
pub(super) fn push_method_parts(out: &mut String, method: &Method) -> Result<(), NoMemory> {
    push_flags(out, "method ", u32::from(method.flags))?;
    push_flags(out, " ", u32::from(method.impl_flags))?;
    out.push(' ')?;
    push_result(out, &method.sig)?;
    out.push(' ')?;
    out.push_str(method.name.as_str())?;
    push_params(out, &method.sig)?;
    out.push_str(if method.entry { " entry\n" } else { "\n" })?;
    for generic in method.generics.as_slice() {
        push_generic(out, generic)?;
    }
    for param in method.params.as_slice() {
        push_param(out, param)?;
    }
    for overridden in method.overrides.as_slice() {
        out.push_str("override ")?;
        push_method(out, overridden)?;
        out.push('\n')?;
    }
    push_attributes(out, &method.attributes)?;
    match &method.body {
        Some(body) => push_body(out, body),
        None => Ok(()),
    }
}

fn push_param(out: &mut String, param: &Param) -> Result<(), NoMemory> {
    push_number(out, "param ", u64::from(param.number))?;
    push_flags(out, " ", u32::from(param.flags))?;
    if !param.name.is_empty() {
        out.push(' ')?;
        out.push_str(param.name.as_str())?;
    }
    push_constant(out, &param.constant)?;
    out.push('\n')?;
    push_attributes(out, &param.attributes)
}

/// A property with its accessors and attributes.
pub(super) fn push_property(out: &mut String, property: &Property) -> Result<(), NoMemory> {
    push_flags(out, "property ", u32::from(property.flags))?;
    out.push(' ')?;
    push_result(out, &property.sig)?;
    out.push(' ')?;
    out.push_str(property.name.as_str())?;
    push_params(out, &property.sig)?;
    push_constant(out, &property.constant)?;
    out.push('\n')?;
    push_accessors(out, &property.accessors)?;
    push_attributes(out, &property.attributes)
}

/// An event with its accessors and attributes.
pub(super) fn push_event(out: &mut String, event: &Event) -> Result<(), NoMemory> {
    push_flags(out, "event ", u32::from(event.flags))?;
    out.push(' ')?;
    push_owner(out, &event.of)?;
    out.push(' ')?;
    out.push_str(event.name.as_str())?;
    out.push('\n')?;
    push_accessors(out, &event.accessors)?;
    push_attributes(out, &event.attributes)
}

fn push_accessors(out: &mut String, accessors: &Accessors) -> Result<(), NoMemory> {
    for accessor in accessors.as_slice() {
        push_flags(out, "accessor ", u32::from(accessor.kind))?;
        push_number(out, " method ", u64::from(accessor.method))?;
        out.push('\n')?;
    }
    Ok(())
}

//! Types, and references to members.

use crate::outline::items::push_number;
use il_base::NoMemory;
use il_lists::{Boxed, Numbers, Signed};
use type_terms::{FieldRef, MethodRef, MethodSig, Owner, Scope, SigType, TypeId, TypeName};

/// A space and a name, with a colon between.
pub(super) fn push_id(out: &mut String, id: &TypeId) -> Result<(), NoMemory> {
    if !id.space.is_empty() {
        out.push_str(id.space.as_str())?;
        out.push(':')?;
    }
    out.push_str(id.name.as_str())?;
    Ok(())
}

/// A type's name: the extern's number and the path.
pub(super) fn push_name(out: &mut String, name: &TypeName) -> Result<(), NoMemory> {
    if let Scope::Extern(number) = name.scope {
        push_number(out, "[", u64::from(number))?;
        out.push(']')?;
    }
    for (place, id) in name.path.as_slice().iter().enumerate() {
        if place > 0 {
            out.push('/')?;
        }
        push_id(out, id)?;
    }
    Ok(())
}

/// A type.
#[cycle(outline)]
pub(super) fn push_type(out: &mut String, of: &SigType) -> Result<(), NoMemory> {
    match of {
        SigType::Prim(prim) => write!(out, "{prim:?}")?,
        SigType::Class(name) => {
            out.push_str("class ")?;
            push_name(out, name)?;
        }
        SigType::Value(name) => {
            out.push_str("valuetype ")?;
            push_name(out, name)?;
        }
        SigType::Inst { value, name, args } => {
            out.push_str(if *value { "valuetype " } else { "class " })?;
            push_name(out, name.get())?;
            out.push('<')?;
            push_types(out, args.get().as_slice())?;
            out.push('>')?;
        }
        SigType::Var(number) => push_number(out, "!", u64::from(*number))?,
        SigType::MVar(number) => push_number(out, "!!", u64::from(*number))?,
        SigType::SzArray(of) => push_boxed(out, of, "[]")?,
        SigType::Array {
            of,
            rank,
            sizes,
            lower,
        } => {
            push_boxed(out, of, "[")?;
            push_shape(out, *rank, sizes.get(), lower.get())?;
        }
        SigType::ByRef(of) => push_boxed(out, of, "&")?,
        SigType::Pointer(of) => push_boxed(out, of, "*")?,
        SigType::Pinned(of) => push_boxed(out, of, " pinned")?,
        SigType::Mod { required, by, of } => {
            push_boxed(out, of, if *required { " modreq(" } else { " modopt(" })?;
            push_owner(out, by.get())?;
            out.push(')')?;
        }
    }
    Ok(())
}

#[cycle(outline)]
fn push_boxed(out: &mut String, of: &Boxed<SigType>, after: &str) -> Result<(), NoMemory> {
    push_type(out, of.get())?;
    out.push_str(after)?;
    Ok(())
}

/// A name, or a type that is made of others.
#[cycle(outline)]
pub(super) fn push_owner(out: &mut String, owner: &Owner) -> Result<(), NoMemory> {
    match owner {
        Owner::Name(name) => push_name(out, name)?,
        Owner::Spec(of) => push_type(out, of)?,
    }
    Ok(())
}

/// Types with commas between.
#[cycle(outline)]
pub(super) fn push_types(out: &mut String, types: &[SigType]) -> Result<(), NoMemory> {
    let mut first = true;
    for of in types {
        if !first {
            out.push_str(", ")?;
        }
        first = false;
        push_type(out, of)?;
    }
    Ok(())
}

// A rank, sizes and lower bounds.
fn push_shape(
    out: &mut String,
    rank: u32,
    sizes: &Numbers,
    lower: &Signed,
) -> Result<(), NoMemory> {
    push_number(out, "rank ", u64::from(rank))?;
    for size in sizes.as_slice() {
        push_number(out, " size ", u64::from(*size))?;
    }
    for bound in lower.as_slice() {
        write!(out, " from {bound}")?;
    }
    out.push(']')?;
    Ok(())
}

/// What stands before a signature's name.
pub(super) fn push_result(out: &mut String, sig: &MethodSig) -> Result<(), NoMemory> {
    let words = [
        (sig.has_this, "instance "),
        (sig.explicit_this, "explicit "),
        (sig.vararg, "vararg "),
    ];
    for (said, word) in words {
        if said {
            out.push_str(word)?;
        }
    }
    push_type(out, &sig.ret)
}

/// What stands behind it: the generic number and the parameters.
pub(super) fn push_params(out: &mut String, sig: &MethodSig) -> Result<(), NoMemory> {
    if sig.generic > 0 {
        push_number(out, "<[", u64::from(sig.generic))?;
        out.push_str("]>")?;
    }
    out.push('(')?;
    push_types(out, sig.params.as_slice())?;
    if let Some(place) = sig.sentinel {
        push_number(out, " ... from ", u64::from(place))?;
    }
    out.push(')')?;
    Ok(())
}

/// A reference to a method.
pub(super) fn push_method(out: &mut String, method: &MethodRef) -> Result<(), NoMemory> {
    push_result(out, &method.sig)?;
    out.push(' ')?;
    push_owner(out, &method.owner)?;
    out.push_str("::")?;
    out.push_str(method.name.as_str())?;
    if let Some(args) = &method.args {
        out.push('<')?;
        push_types(out, args.as_slice())?;
        out.push('>')?;
    }
    push_params(out, &method.sig)
}

/// A reference to a field.
pub(super) fn push_field(out: &mut String, field: &FieldRef) -> Result<(), NoMemory> {
    push_type(out, &field.of)?;
    out.push(' ')?;
    push_owner(out, &field.owner)?;
    out.push_str("::")?;
    out.push_str(field.name.as_str())?;
    Ok(())
}

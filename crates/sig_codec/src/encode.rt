ghost use Rattle.std.specs.Prelude.{◌≡◌, ℕ, Option, IfOk, OnOk};
ghost use Rattle.sig_codec.specs.Spelling.{writing, SpellsType};
ghost use Rattle.sig_codec.specs.Signature.{SpellsMethod, SpellsField, SpellsProperty, SpellsLocals, SpellsInstantiation, SpellsGeneric, SpellsParams, method_byte, property_byte};
ghost use Rattle.type_terms.specs.declared.term.Owner.{Owner};
ghost use Rattle.sig_codec.specs.Spellable.{CanBePacked, HasSpelling, HaveSpellings, IsSentinel, MethodHasSpelling, PropertyHasSpelling, LocalsHaveSpelling, InstantiationHasSpelling};
ghost use Rattle.sig_codec.specs.Writing.{Appends};

use crate::Numberer;
use crate::write_type::{push_each, push_type};
use il_base::{Bytes, Items, NoMemory, push_packed};
use std::alloc::Global;
use type_terms::{MethodSig, SigType, Types};

/// The bytes that spell the type (ECMA-335 II.23.2.12, II.23.2.14), each number in its shortest form, with the tokens of
/// `map`. The type has a spelling: each name in it has a token of its kind, and its counts and numbers can be packed.
///
/// # Errors
///
/// There was no memory for the bytes.
pub fn encode_type<N: Numberer>(alloc: Global, t: &SigType, map: &N) -> Result<Bytes, NoMemory>
    requires { HasSpelling (N.owner_tokens map.now) t.now }
    ensures { IfOk result (λ bytes. SpellsType (writing (N.owner_tokens map.now)) t.now bytes) }
{
    let mut out = Items::new(alloc);
    push_type(alloc, &mut out, t, map)?;
    Ok(out)
}

/// The bytes that spell the method (ECMA-335 II.23.2.1, II.23.2.2), on the conditions of `encode_type`.
///
/// # Errors
///
/// There was no memory for the bytes.
pub fn encode_method<N: Numberer>(alloc: Global, s: &MethodSig, map: &N) -> Result<Bytes, NoMemory>
    requires { MethodHasSpelling (N.owner_tokens map.now) s.now }
    ensures { IfOk result (λ bytes. SpellsMethod (writing (N.owner_tokens map.now)) s.now bytes) }
{
    // Most signatures are shorter.
    let mut out = Items::with_capacity(alloc, 24)?;
    out.push(method_byte(s))?;
    push_generics(&mut out, s.generic)?;
    push_packed(&mut out, s.params.len() as u32)?;
    push_type(alloc, &mut out, &s.ret, map)?;
    push_params(alloc, &mut out, &s.params, s.sentinel, map)?;
    Ok(out)
}

/// The first byte of a method (ECMA-335 II.23.2.1).
fn method_byte(s: &MethodSig) -> u8
    ensures { result ≡ method_byte s.now }
{
    let call = if s.vararg { 0x05 } else { 0x00 };
    let this = if s.has_this { 0x20 } else { 0x00 };
    let explicit = if s.explicit_this { 0x40 } else { 0x00 };
    let generic = if s.generic == 0 { 0x00 } else { 0x10 };
    call + this + explicit + generic
}

/// Adds the number of generic parameters, where there are any.
fn push_generics(out: &mut Bytes, generic: u32) -> Result<(), NoMemory>
    requires { CanBePacked generic }
    ensures { (tokens : Owner → Option ℕ) → OnOk result (Appends out.old out.new (SpellsGeneric (writing tokens) generic)) }
{
    if generic == 0 {
        return Ok(());
    }
    push_packed(out, generic)
}

/// Adds the parameters, with a sentinel before the first one after the fixed ones (ECMA-335 II.23.2.2).
fn push_params<N: Numberer>(
    alloc: Global,
    out: &mut Bytes,
    params: &Types,
    sentinel: Option<u32>,
    map: &N,
) -> Result<(), NoMemory>
    requires each { HaveSpellings (N.owner_tokens map.now) params.now }
    requires sentinel { IsSentinel sentinel params.now }
    ensures { OnOk result (Appends out.old out.new (SpellsParams (writing (N.owner_tokens map.now)) sentinel params.now)) }
{
    let params = params.as_slice();
    match sentinel {
        None => push_each(alloc, out, params, map),
        Some(fixed) => {
            let (fixed, others) = params.split_at(fixed as usize);
            push_each(alloc, out, fixed, map)?;
            out.push(0x41)?;
            push_each(alloc, out, others, map)
        }
    }
}

/// The bytes that spell a field of this type (ECMA-335 II.23.2.4), on the conditions of `encode_type`.
///
/// # Errors
///
/// There was no memory for the bytes.
pub fn encode_field<N: Numberer>(alloc: Global, t: &SigType, map: &N) -> Result<Bytes, NoMemory>
    requires { HasSpelling (N.owner_tokens map.now) t.now }
    ensures { IfOk result (λ bytes. SpellsField (writing (N.owner_tokens map.now)) t.now bytes) }
{
    let mut out = Items::new(alloc);
    out.push(0x06)?;
    push_type(alloc, &mut out, t, map)?;
    Ok(out)
}

/// The bytes that spell the property (ECMA-335 II.23.2.5), on the conditions of `encode_type`. A property is neither explicit,
/// vararg nor generic, and has no sentinel.
///
/// # Errors
///
/// There was no memory for the bytes.
pub fn encode_property<N: Numberer>(
    alloc: Global,
    s: &MethodSig,
    map: &N,
) -> Result<Bytes, NoMemory>
    requires { PropertyHasSpelling (N.owner_tokens map.now) s.now }
    ensures { IfOk result (λ bytes. SpellsProperty (writing (N.owner_tokens map.now)) s.now bytes) }
{
    let mut out = Items::new(alloc);
    out.push(property_byte(s.has_this))?;
    push_packed(&mut out, s.params.len() as u32)?;
    push_type(alloc, &mut out, &s.ret, map)?;
    push_each(alloc, &mut out, s.params.as_slice(), map)?;
    Ok(out)
}

/// The first byte of a property (ECMA-335 II.23.2.5).
fn property_byte(has_this: bool) -> u8
    ensures { result ≡ property_byte has_this }
{
    if has_this { 0x28 } else { 0x08 }
}

/// The bytes that spell locals of these types (ECMA-335 II.23.2.6), on the conditions of `encode_type`.
///
/// # Errors
///
/// There was no memory for the bytes.
pub fn encode_locals<N: Numberer>(alloc: Global, l: &Types, map: &N) -> Result<Bytes, NoMemory>
    requires { LocalsHaveSpelling (N.owner_tokens map.now) l.now }
    ensures { IfOk result (λ bytes. SpellsLocals (writing (N.owner_tokens map.now)) l.now bytes) }
{
    let mut out = Items::new(alloc);
    out.push(0x07)?;
    push_packed(&mut out, l.len() as u32)?;
    push_each(alloc, &mut out, l.as_slice(), map)?;
    Ok(out)
}

/// The bytes that spell the arguments of a generic method (ECMA-335 II.23.2.15), of which there is at least one, on the
/// conditions of `encode_type`.
///
/// # Errors
///
/// There was no memory for the bytes.
pub fn encode_instantiation<N: Numberer>(
    alloc: Global,
    l: &Types,
    map: &N,
) -> Result<Bytes, NoMemory>
    requires { InstantiationHasSpelling (N.owner_tokens map.now) l.now }
    ensures { IfOk result (λ bytes. SpellsInstantiation (writing (N.owner_tokens map.now)) l.now bytes) }
{
    let mut out = Items::new(alloc);
    out.push(0x0A)?;
    push_packed(&mut out, l.len() as u32)?;
    push_each(alloc, &mut out, l.as_slice(), map)?;
    Ok(out)
}

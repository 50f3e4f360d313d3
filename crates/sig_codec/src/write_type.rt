ghost use Rattle.std.specs.Prelude.{◌≡◌, OnOk};
ghost use Rattle.sig_codec.specs.Spelling.{writing, SpellsType, SpellsEach};
ghost use Rattle.sig_codec.specs.Spellable.{HasSpelling, HaveSpellings};
ghost use Rattle.sig_codec.specs.Writing.{Appends};

use crate::Numberer;
use crate::write::{
    kind_byte, modifier_byte, prim_byte, push_declared, push_name, push_owner, push_shape,
};
use il_base::{Bytes, NoMemory, push_packed};
use std::alloc::Global;
use type_terms::SigType;

/// Adds the spelling of a type (ECMA-335 II.23.2.12).
#[cycle(writing)]
pub(crate) fn push_type<N: Numberer>(
    alloc: Global,
    out: &mut Bytes,
    t: &SigType,
    map: &N,
) -> Result<(), NoMemory>
    requires { HasSpelling (N.owner_tokens map.now) t.now }
    ensures { OnOk result (Appends out.old out.new (SpellsType (writing (N.owner_tokens map.now)) t.now)) }
{
    match t {
        SigType::Prim(prim) => out.push(prim_byte(*prim)),
        SigType::Class(name) => {
            out.push(0x12)?;
            push_declared(alloc, out, name, map)
        }
        SigType::Value(name) => {
            out.push(0x11)?;
            push_declared(alloc, out, name, map)
        }
        SigType::Inst { value, name, args } => {
            out.push(0x15)?;
            out.push(kind_byte(*value))?;
            let args = args.get();
            push_name(alloc, out, name.get(), map)?;
            push_packed(out, args.len() as u32)?;
            push_each(alloc, out, args.as_slice(), map)
        }
        SigType::Var(number) => {
            out.push(0x13)?;
            push_packed(out, *number)
        }
        SigType::MVar(number) => {
            out.push(0x1E)?;
            push_packed(out, *number)
        }
        SigType::SzArray(of) => {
            out.push(0x1D)?;
            push_type(alloc, out, of.get(), map)
        }
        SigType::Array {
            of,
            rank,
            sizes,
            lower,
        } => {
            out.push(0x14)?;
            push_type(alloc, out, of.get(), map)?;
            push_shape(out, *rank, sizes.get().as_slice(), lower.get().as_slice())
        }
        SigType::ByRef(of) => {
            out.push(0x10)?;
            push_type(alloc, out, of.get(), map)
        }
        SigType::Pointer(of) => {
            out.push(0x0F)?;
            push_type(alloc, out, of.get(), map)
        }
        SigType::Mod { required, by, of } => {
            out.push(modifier_byte(*required))?;
            push_owner(out, by.get(), map)?;
            push_type(alloc, out, of.get(), map)
        }
        SigType::Pinned(of) => {
            out.push(0x45)?;
            push_type(alloc, out, of.get(), map)
        }
    }
}

/// Adds the spelling of each type.
#[cycle(writing)]
pub(crate) fn push_each<N: Numberer>(
    alloc: Global,
    out: &mut Bytes,
    types: &[SigType],
    map: &N,
) -> Result<(), NoMemory>
    requires { HaveSpellings (N.owner_tokens map.now) types.now }
    ensures { OnOk result (Appends out.old out.new (SpellsEach (writing (N.owner_tokens map.now)) types.now)) }
{
    for t in types {
        push_type(alloc, out, t, map)?;
    }
    Ok(())
}

//! Tokens for the names in types: those that a signature is spelled with (ECMA-335 II.23.2).
ghost use Rattle.std.specs.Prelude.{◌≡◌, ◌+◌, ◌^◌, ◌≤◌, sum_by, IfOk, OnOk};
ghost use Rattle.assembly_tree.specs.Weight.{type_weight, owner_weight};
ghost use Rattle.image_tokens.specs.Noted.{IsOwned, IsNoted, AreNoted};
ghost use Rattle.image_tokens.specs.References.{size, AreKnown};
ghost use Rattle.image_tokens.specs.Writable.{IsWritable, IsOwnerWritable, AreWritable};

use crate::naming::refer_name;
use crate::references::References;
use crate::type_specs::refer_type;
use il_base::NoMemory;
use std::alloc::Global;
use type_terms::{Owner, SigType};

/// The token of an owner, which is given to it where it has none.
#[cycle(noting)]
pub fn refer_owner<'a>(
    alloc: Global,
    refs: &mut References<'a>,
    owner: &'a Owner,
) -> Result<u32, NoMemory>
    requires known { AreKnown refs.old }
    requires writable { IsOwnerWritable refs.old owner.now }
    requires room { size refs.old + owner_weight owner.now ≤ 2 ^ 26 }
    ensures { IfOk result (IsOwned refs.old refs.new owner.now) }
{
    match owner {
        Owner::Name(name) => refer_name(refs, name),
        Owner::Spec(of) => {
            note_type(alloc, refs, of)?;
            refer_type(alloc, refs, of)
        }
    }
}

/// Gives a token to each name in a type.
#[cycle(noting)]
pub fn note_type<'a>(
    alloc: Global,
    refs: &mut References<'a>,
    t: &'a SigType,
) -> Result<(), NoMemory>
    requires known { AreKnown refs.old }
    requires writable { IsWritable refs.old t.now }
    requires room { size refs.old + type_weight t.now ≤ 2 ^ 26 }
    ensures { OnOk result (IsNoted refs.old refs.new t.now) }
{
    match t {
        SigType::Prim(_) => Ok(()),
        SigType::Var(_) => Ok(()),
        SigType::MVar(_) => Ok(()),
        SigType::Class(name) => {
            refer_name(refs, name)?;
            Ok(())
        }
        SigType::Value(name) => {
            refer_name(refs, name)?;
            Ok(())
        }
        SigType::Inst { name, args, .. } => {
            refer_name(refs, name.get())?;
            note_types(alloc, refs, args.get().as_slice())
        }
        SigType::SzArray(of) => note_type(alloc, refs, of.get()),
        SigType::Array { of, .. } => note_type(alloc, refs, of.get()),
        SigType::ByRef(of) => note_type(alloc, refs, of.get()),
        SigType::Pointer(of) => note_type(alloc, refs, of.get()),
        SigType::Mod { by, of, .. } => {
            refer_owner(alloc, refs, by.get())?;
            note_type(alloc, refs, of.get())
        }
        SigType::Pinned(of) => note_type(alloc, refs, of.get()),
    }
}

/// Gives a token to each name in the types.
#[cycle(noting)]
pub fn note_types<'a>(
    alloc: Global,
    refs: &mut References<'a>,
    types: &'a [SigType],
) -> Result<(), NoMemory>
    requires known { AreKnown refs.old }
    requires writable { AreWritable refs.old types.now }
    requires room { size refs.old + sum_by type_weight types.now ≤ 2 ^ 26 }
    ensures { OnOk result (AreNoted refs.old refs.new types.now) }
{
    for t in types {
        note_type(alloc, refs, t)?;
    }
    Ok(())
}

ghost use Rattle.std.specs.Prelude.{◌≡◌, ◌<◌, ℕ, Option, OnOk, length};
ghost use Rattle.std.specs.List.{AllByRecursion};
ghost use Rattle.il_base.specs.Numbers.{packed_bytes};
ghost use Rattle.type_terms.specs.declared.term.Owner.{Owner};
ghost use Rattle.type_terms.specs.declared.term.Owner.TheVariants as owners;
ghost use Rattle.sig_codec.specs.Spelling.{Notation, writing, prim_byte, kind_byte, modifier_byte, SpellsOwner, SpellsName, SpellsEachBy, SpellsShape, SpellsType, SpellsEach};
ghost use Rattle.sig_codec.specs.Spellable.{HasToken, HasDeclaredToken, CanBePacked, CanBePackedSigned, IsShape, HasSpelling, HaveSpellings};
ghost use Rattle.sig_codec.specs.Writing.{Appends};

use crate::Numberer;
use crate::token::coded_of_token;
use il_base::{Bytes, NoMemory, push_packed, push_packed_signed};
use std::alloc::Global;
use type_terms::{Owner, Prim, SigType, TypeName};

/// The element type of a primitive type (ECMA-335 II.23.1.16).
pub(crate) fn prim_byte(prim: Prim) -> u8
    ensures { result ≡ prim_byte prim }
{
    match prim {
        Prim::Void => 0x01,
        Prim::Bool => 0x02,
        Prim::Char => 0x03,
        Prim::I1 => 0x04,
        Prim::U1 => 0x05,
        Prim::I2 => 0x06,
        Prim::U2 => 0x07,
        Prim::I4 => 0x08,
        Prim::U4 => 0x09,
        Prim::I8 => 0x0A,
        Prim::U8 => 0x0B,
        Prim::R4 => 0x0C,
        Prim::R8 => 0x0D,
        Prim::Str => 0x0E,
        Prim::TypedRef => 0x16,
        Prim::NInt => 0x18,
        Prim::NUint => 0x19,
        Prim::Object => 0x1C,
    }
}

/// The element type of a value type or a class (ECMA-335 II.23.1.16).
pub(crate) fn kind_byte(value: bool) -> u8
    ensures { result ≡ kind_byte value }
{
    if value { 0x11 } else { 0x12 }
}

/// The element type of a required or an optional modifier (ECMA-335 II.23.1.16).
pub(crate) fn modifier_byte(required: bool) -> u8
    ensures { result ≡ modifier_byte required }
{
    if required { 0x1F } else { 0x20 }
}

/// Adds the coded number of the token of `owner`.
pub(crate) fn push_owner<N: Numberer>(
    out: &mut Bytes,
    owner: &Owner,
    map: &N,
) -> Result<(), NoMemory>
    requires { HasToken (N.owner_tokens map.now) owner.now }
    ensures { OnOk result (Appends out.old out.new (SpellsOwner (writing (N.owner_tokens map.now)) owner.now)) }
{
    let token = map.token_of_owner(owner).unwrap();
    push_packed(out, coded_of_token(token))
}

/// Adds the coded number of the token of the type with this name.
pub(crate) fn push_name<N: Numberer>(
    alloc: Global,
    out: &mut Bytes,
    name: &TypeName,
    map: &N,
) -> Result<(), NoMemory>
    requires { HasToken (N.owner_tokens map.now) (owners.Name name.now) }
    ensures { OnOk result (Appends out.old out.new (SpellsOwner (writing (N.owner_tokens map.now)) (owners.Name name.now))) }
{
    let token = map.token_of_name(alloc, name)?.unwrap();
    push_packed(out, coded_of_token(token))
}

/// The same for a type that is declared in the tables TypeDef and TypeRef.
pub(crate) fn push_declared<N: Numberer>(
    alloc: Global,
    out: &mut Bytes,
    name: &TypeName,
    map: &N,
) -> Result<(), NoMemory>
    requires { HasDeclaredToken (N.owner_tokens map.now) name.now }
    ensures { OnOk result (Appends out.old out.new (SpellsName (writing (N.owner_tokens map.now)) name.now)) }
{
    let token = map.token_of_name(alloc, name)?.unwrap();
    push_packed(out, coded_of_token(token))
}

/// Adds each number, packed.
fn push_numbers(out: &mut Bytes, numbers: &[u32]) -> Result<(), NoMemory>
    requires { AllByRecursion CanBePacked numbers.now }
    ensures { (tokens : Owner → Option ℕ) → OnOk result (Appends out.old out.new (SpellsEachBy (writing tokens).number numbers.now)) }
{
    for number in numbers {
        push_packed(out, *number)?;
    }
    Ok(())
}

/// Adds each signed number, packed.
fn push_signed_numbers(out: &mut Bytes, numbers: &[i32]) -> Result<(), NoMemory>
    requires { AllByRecursion CanBePackedSigned numbers.now }
    ensures { (tokens : Owner → Option ℕ) → OnOk result (Appends out.old out.new (SpellsEachBy (writing tokens).signed numbers.now)) }
{
    for number in numbers {
        push_packed_signed(out, *number)?;
    }
    Ok(())
}

/// Adds the shape of an array (ECMA-335 II.23.2.13).
pub(crate) fn push_shape(
    out: &mut Bytes,
    rank: u32,
    sizes: &[u32],
    lower: &[i32],
) -> Result<(), NoMemory>
    requires { IsShape rank sizes.now lower.now }
    ensures { (tokens : Owner → Option ℕ) → OnOk result (Appends out.old out.new (SpellsShape (writing tokens) rank sizes.now lower.now)) }
{
    push_packed(out, rank)?;
    push_packed(out, sizes.len() as u32)?;
    push_numbers(out, sizes)?;
    push_packed(out, lower.len() as u32)?;
    push_signed_numbers(out, lower)
}

//! The tokens of fields and methods (ECMA-335 II.22.25, II.22.29): that of the row that a declared type has
//! for a member, or else that of a row of MemberRef.
ghost use Rattle.std.specs.Prelude.{◌≡◌, ◌≢◌, ◌+◌, ◌-◌, ◌^◌, ◌<◌, ◌≤◌, [], length, Some, IfSome, IfOk};
ghost use Rattle.assembly_tree.specs.Weight.{owner_weight, field_ref_weight};
ghost use Rattle.sig_codec.specs.Signature.{SpellsField};
ghost use Rattle.image_tokens.specs.Bounds.{IsTypeInBounds};
ghost use Rattle.image_tokens.specs.Members.{member_cells, IsDeclaredRow, IsReferredRow, IsRowToken, Leaves, IsTextAt, HasField, IsPlaced};
ghost use Rattle.image_tokens.specs.References.{tokens_of, size, AreKnown, HasSignature};
ghost use Rattle.image_tokens.specs.Rows.{AddsOneAtMost};
ghost use Rattle.image_tokens.specs.Texts.{HasNoZero, HoldsText};
ghost use Rattle.image_tokens.specs.TypePaths.{GoesOn};
ghost use Rattle.image_tokens.specs.Writable.{IsOwnerWritable, IsFieldRefWritable};

use crate::noting::refer_owner;
use crate::references::References;
use crate::row_list::RowList;
use crate::row_set::{Cells, RowSet};
use crate::signatures::field_signature;
use crate::texts::add_text;
use crate::tokens::{FIELD, MEMBER_REF, TYPE_DEF, index_of_token, token_of};
use il_base::{NoMemory, Text};
use metadata_tables::Coded;
use std::alloc::Global;
use type_terms::{FieldRef, Owner};

/// The index of a text in the heap of the references.
pub fn refer_text<'a>(refs: &mut References<'a>, text: &Text) -> Result<u32, NoMemory>
    requires known { AreKnown refs.old }
    requires no_zero { HasNoZero text.now }
    requires room { size refs.old + (length text.now + 1) ≤ 2 ^ 26 }
    ensures { IfOk result (Leaves (IsTextAt text.now) refs.old refs.new (length text.now + 1)) }
{
    add_text(&mut refs.heaps.strings, text)
}

/// The row that a declared type has for a member.
fn declared_row_of(
    declared: &mut RowList,
    owner: u32,
    name: u32,
    signature: u32,
) -> Result<Option<u32>, NoMemory>
    ensures same { declared.new ≡ declared.old }
    ensures found { IfOk result (λ row. IfSome row (IsDeclaredRow declared.old owner name signature)) }
    ensures few { IfOk result (λ row. IfSome row (λ n. n < 2 ^ 24)) }
{
    if owner / 0x0100_0000 != u32::from(TYPE_DEF) {
        return Ok(None);
    }
    declared.find(Cells {
        first: owner % 0x0100_0000,
        second: name,
        third: signature,
    })
}

/// The row of MemberRef of a member, which is added where it is lacking.
fn referred_row_of(
    members: &mut RowSet,
    owner: u32,
    name: u32,
    signature: u32,
) -> Result<u32, NoMemory>
    requires { length members.old < 2 ^ 24 - 1 }
    ensures row { IfOk result (IsReferredRow members.new owner name signature) }
    ensures adds { AddsOneAtMost (member_cells owner name signature) members.old members.new }
    ensures few { IfOk result (λ row. row < 2 ^ 24) }
    ensures goes_on { GoesOn members.old members.new }
    ensures more { length members.new ≤ length members.old + 1 }
{
    members.number(Cells {
        first: index_of_token(Coded::MemberRefParent, owner),
        second: name,
        third: signature,
    })
}

/// The token of a member by the rows; a row of MemberRef that is lacking is added.
pub fn member_token(
    declared: &mut RowList,
    members: &mut RowSet,
    table: u8,
    owner: u32,
    name: u32,
    signature: u32,
) -> Result<u32, NoMemory>
    requires { length members.old < 2 ^ 24 - 1 }
    ensures same { declared.new ≡ declared.old }
    ensures token { IfOk result (IsRowToken table declared.old members.new owner name signature) }
    ensures adds { AddsOneAtMost (member_cells owner name signature) members.old members.new }
    ensures goes_on { GoesOn members.old members.new }
    ensures more { length members.new ≤ length members.old + 1 }
{
    let known = declared_row_of(declared, owner, name, signature)?;
    if let Some(row) = known {
        return Ok(token_of(table, row));
    }
    let row = referred_row_of(members, owner, name, signature)?;
    Ok(token_of(MEMBER_REF, row))
}

/// The token of an owner and the index of a name.
pub fn refer_place<'a>(
    alloc: Global,
    refs: &mut References<'a>,
    owner: &'a Owner,
    name: &Text,
) -> Result<(u32, u32), NoMemory>
    requires known { AreKnown refs.old }
    requires writable { IsOwnerWritable refs.old owner.now }
    requires no_zero { HasNoZero name.now }
    requires room { size refs.old + (owner_weight owner.now + length name.now + 1) ≤ 2 ^ 26 }
    ensures { IfOk result (λ at. IsPlaced refs.old refs.new owner.now name.now (owner_weight owner.now + length name.now + 1) at.0 at.1) }
{
    let token = refer_owner(alloc, refs, owner)?;
    let index = refer_text(refs, name)?;
    Ok((token, index))
}

/// The token of a field, which is given to it where it has none.
pub fn refer_field<'a>(
    alloc: Global,
    refs: &mut References<'a>,
    field: &'a FieldRef,
) -> Result<u32, NoMemory>
    requires known { AreKnown refs.old }
    requires writable { IsFieldRefWritable refs.old field.now }
    requires room { size refs.old + field_ref_weight field.now ≤ 2 ^ 26 }
    ensures { IfOk result (Leaves (HasField field.now) refs.old refs.new (field_ref_weight field.now)) }
{
    if let Some(token) = refs.known.fields.find(field) {
        return Ok(token);
    }
    let at = refer_place(alloc, refs, &field.owner, &field.name)?;
    let signature = field_signature(alloc, refs, &field.of)?;
    give_field(refs, field, at.0, at.1, signature)
}

/// Gives a field the token of its row, by the row's cells.
fn give_field<'a>(
    refs: &mut References<'a>,
    field: &'a FieldRef,
    owner: u32,
    name: u32,
    signature: u32,
) -> Result<u32, NoMemory>
    requires known { AreKnown refs.old }
    requires owner_is { tokens_of refs.old field.now.owner ≡ Some owner }
    requires name_is { HoldsText refs.old.heaps.strings field.now.name name }
    requires signature_is { HasSignature SpellsField refs.old field.now.of signature }
    requires named { field.now.name ≢ [] }
    requires in_bounds { IsTypeInBounds field.now.of }
    requires room { size refs.old + 12 ≤ 2 ^ 26 }
    ensures { IfOk result (Leaves (HasField field.now) refs.old refs.new 12) }
{
    let token = member_token(
        &mut refs.declared.fields,
        &mut refs.referred.members,
        FIELD,
        owner,
        name,
        signature,
    )?;
    refs.known.fields.give(field, token)
}

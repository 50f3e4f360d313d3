ghost use Rattle.std.specs.Prelude.{◌≡◌, IfOk, OnOk};
ghost use Rattle.image_model.specs.Rows.{token_of};
ghost use Rattle.image_model.specs.Terms.{MemberHasMethod};
ghost use Rattle.image_model.specs.Used.{IsUsed};
ghost use Rattle.image_source.specs.Names.{names_of};
ghost use Rattle.type_terms.specs.declared.reference.MethodSig.{MethodSig};
ghost use Rattle.kept_members.specs.Maps.{all_of, Has, AreTrue, Adds};
ghost use Rattle.kept_members.specs.Members.{CanKeep, IsMethodOf, IsFieldOf, HasMethods, IsMemberMethod, IsMemberField, HasMemberMethods, HasMemberFields};

use crate::owners::{member_owner, token_of};
use crate::signatures::{field_in, method_in, sure};
use heaps::one_content_at_an_index;
use il_base::NoMemory;
use image_streams::Image;
use image_used::Used;
use kept_names::{Kept, KeptNames};
use row_parts::{text_of, three};
use std::alloc::Global;
use type_terms::{FieldRef, MethodRef, MethodSig};

/// Keeps the methods and fields that rows of MemberRef in use are, where the methods of all types are kept (II.22.25).
pub(crate) fn keep_references(
    alloc: Global,
    image: &Image<'_>,
    used: &Used<'_, '_>,
    known: &KeptNames,
    methods: &mut Kept<MethodRef>,
    fields: &mut Kept<FieldRef>,
) -> Result<(), NoMemory>
    requires used { used.now ≡ image.now }
    requires can { CanKeep image.now known.now }
    requires so { AreTrue (IsMethodOf image.now known.now) (all_of methods.old) }
    requires has { HasMethods image.now (all_of methods.old) }
    ensures adds_methods { OnOk result (Adds (IsMethodOf image.now known.now) (all_of methods.old) (all_of methods.new)) }
    ensures adds_fields { OnOk result (Adds (IsFieldOf image.now known.now) (all_of fields.old) (all_of fields.new)) }
    ensures methods { OnOk result (HasMemberMethods image.now known.now (all_of methods.new)) }
    ensures fields { OnOk result (HasMemberFields image.now known.now (all_of fields.new)) }
{
    for row in 0..image.tables().rows(0x0A) {
        keep_used(alloc, image, used, known, row + 1, methods, fields)?;
    }
    Ok(())
}

/// Keeps the method or the field that a row is, where it is in use.
fn keep_used(
    alloc: Global,
    image: &Image<'_>,
    used: &Used<'_, '_>,
    known: &KeptNames,
    row: u32,
    methods: &mut Kept<MethodRef>,
    fields: &mut Kept<FieldRef>,
) -> Result<(), NoMemory>
    requires used { used.now ≡ image.now }
    requires can { CanKeep image.now known.now }
    requires so { AreTrue (IsMethodOf image.now known.now) (all_of methods.old) }
    requires has { HasMethods image.now (all_of methods.old) }
    ensures adds_methods { OnOk result (Adds (IsMethodOf image.now known.now) (all_of methods.old) (all_of methods.new)) }
    ensures adds_fields { OnOk result (Adds (IsFieldOf image.now known.now) (all_of fields.old) (all_of fields.new)) }
    ensures methods { OnOk result (IsMemberMethod image.now known.now row → Has (all_of methods.new) (token_of 0x0A row)) }
    ensures fields { OnOk result (IsMemberField image.now known.now row → Has (all_of fields.new) (token_of 0x0A row)) }
{
    if used.is_used(0x0A, row) {
        return keep_row(alloc, image, known, row, methods, fields);
    }
    Ok(())
}

/// Keeps the method or the field that a row in use is.
#[tactic(auto, unfolding(metadata_tables::specs::Schema::schema))]
fn keep_row(
    alloc: Global,
    image: &Image<'_>,
    known: &KeptNames,
    row: u32,
    methods: &mut Kept<MethodRef>,
    fields: &mut Kept<FieldRef>,
) -> Result<(), NoMemory>
    requires can { CanKeep image.now known.now }
    requires used { IsUsed image.now 0x0A row }
    requires so { AreTrue (IsMethodOf image.now known.now) (all_of methods.old) }
    requires has { HasMethods image.now (all_of methods.old) }
    ensures adds_methods { OnOk result (Adds (IsMethodOf image.now known.now) (all_of methods.old) (all_of methods.new)) }
    ensures adds_fields { OnOk result (Adds (IsFieldOf image.now known.now) (all_of fields.old) (all_of fields.new)) }
    ensures methods { OnOk result (IsMemberMethod image.now known.now row → Has (all_of methods.new) (token_of 0x0A row)) }
    ensures fields { OnOk result (IsMemberField image.now known.now row → Has (all_of fields.new) (token_of 0x0A row)) }
{
    one_content_at_an_index();
    match method_in(alloc, image, known, 0x0A, row, 2)? {
        Some(sig) => keep_method(alloc, image, known, row, sig, methods),
        None => keep_field(alloc, image, known, row, methods, fields),
    }
}

/// Keeps the method with a signature that a row in use is.
fn keep_method(
    alloc: Global,
    image: &Image<'_>,
    known: &KeptNames,
    row: u32,
    sig: MethodSig,
    methods: &mut Kept<MethodRef>,
) -> Result<(), NoMemory>
    requires can { CanKeep image.now known.now }
    requires used { IsUsed image.now 0x0A row }
    requires so { AreTrue (IsMethodOf image.now known.now) (all_of methods.old) }
    requires has { HasMethods image.now (all_of methods.old) }
    requires sig { MemberHasMethod image.now (names_of known.now) row sig }
    ensures adds { OnOk result (Adds (IsMethodOf image.now known.now) (all_of methods.old) (all_of methods.new)) }
    ensures has { OnOk result (Has (all_of methods.new) (token_of 0x0A row)) }
{
    let method = method(alloc, image, known, row, sig, methods)?;
    methods.keep(token_of(0x0A, row), method)
}

/// Keeps the field that a row in use is.
fn keep_field(
    alloc: Global,
    image: &Image<'_>,
    known: &KeptNames,
    row: u32,
    methods: &Kept<MethodRef>,
    fields: &mut Kept<FieldRef>,
) -> Result<(), NoMemory>
    requires can { CanKeep image.now known.now }
    requires used { IsUsed image.now 0x0A row }
    requires so { AreTrue (IsMethodOf image.now known.now) (all_of methods.now) }
    requires has { HasMethods image.now (all_of methods.now) }
    requires no_method { (sig : MethodSig) → MemberHasMethod image.now (names_of known.now) row sig → ⊥ }
    ensures adds { OnOk result (Adds (IsFieldOf image.now known.now) (all_of fields.old) (all_of fields.new)) }
    ensures has { OnOk result (Has (all_of fields.new) (token_of 0x0A row)) }
{
    let field = field(alloc, image, known, row, methods)?;
    fields.keep(token_of(0x0A, row), field)
}

/// The method with a signature that a row in use is.
#[tactic(auto, unfolding(metadata_tables::specs::Schema::schema))]
fn method(
    alloc: Global,
    image: &Image<'_>,
    known: &KeptNames,
    row: u32,
    sig: MethodSig,
    methods: &Kept<MethodRef>,
) -> Result<MethodRef, NoMemory>
    requires can { CanKeep image.now known.now }
    requires used { IsUsed image.now 0x0A row }
    requires so { AreTrue (IsMethodOf image.now known.now) (all_of methods.now) }
    requires has { HasMethods image.now (all_of methods.now) }
    requires sig { MemberHasMethod image.now (names_of known.now) row sig }
    ensures { IfOk result (IsMethodOf image.now known.now (token_of 0x0A row)) }
{
    let (owner, name, sig) = three(
        member_owner(alloc, image, known, methods, row),
        text_of(alloc, image, 0x0A, row, 1),
        Ok(sig),
    )?;
    Ok(MethodRef {
        owner,
        name,
        sig,
        args: None,
    })
}

/// The field that a row in use is.
#[tactic(auto, unfolding(metadata_tables::specs::Schema::schema))]
fn field(
    alloc: Global,
    image: &Image<'_>,
    known: &KeptNames,
    row: u32,
    methods: &Kept<MethodRef>,
) -> Result<FieldRef, NoMemory>
    requires can { CanKeep image.now known.now }
    requires used { IsUsed image.now 0x0A row }
    requires so { AreTrue (IsMethodOf image.now known.now) (all_of methods.now) }
    requires has { HasMethods image.now (all_of methods.now) }
    requires no_method { (sig : MethodSig) → MemberHasMethod image.now (names_of known.now) row sig → ⊥ }
    ensures { IfOk result (IsFieldOf image.now known.now (token_of 0x0A row)) }
{
    let (owner, name, of) = three(
        member_owner(alloc, image, known, methods, row),
        text_of(alloc, image, 0x0A, row, 1),
        sure(field_in(alloc, image, known, 0x0A, row, 2)),
    )?;
    Ok(FieldRef { owner, name, of })
}

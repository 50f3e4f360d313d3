ghost use Rattle.std.specs.Prelude.{◌≡◌, ◌<◌, ◌^◌, IfOk, OnOk};
ghost use Rattle.image_model.specs.Rows.{token_of};
ghost use Rattle.image_model.specs.Used.{IsUsed};
ghost use Rattle.kept_members.specs.Maps.{all_of, Has, AreTrue, Adds};
ghost use Rattle.kept_members.specs.Members.{CanKeep, IsMethodOf, HasMethods, HasMemberMethods, IsInstance, HasInstances};

use crate::owners::{kept_method, named_row, token_of};
use crate::signatures::{arguments_in, sure};
use il_base::{Copies, NoMemory};
use image_streams::Image;
use image_used::Used;
use kept_names::{Kept, KeptNames};
use metadata_tables::Coded;
use row_parts::four;
use std::alloc::Global;
use type_terms::MethodRef;

/// Keeps the methods that rows of MethodSpec in use are, where those that they are made of are kept (II.22.29).
pub(crate) fn keep_instances(
    alloc: Global,
    image: &Image<'_>,
    used: &Used<'_, '_>,
    known: &KeptNames,
    methods: &mut Kept<MethodRef>,
) -> Result<(), NoMemory>
    requires used { used.now ≡ image.now }
    requires can { CanKeep image.now known.now }
    requires so { AreTrue (IsMethodOf image.now known.now) (all_of methods.old) }
    requires has { HasMethods image.now (all_of methods.old) }
    requires members { HasMemberMethods image.now known.now (all_of methods.old) }
    ensures adds { OnOk result (Adds (IsMethodOf image.now known.now) (all_of methods.old) (all_of methods.new)) }
    ensures has { OnOk result (HasInstances image.now (all_of methods.new)) }
{
    for row in 0..image.tables().rows(0x2B) {
        keep_used(alloc, image, used, known, row + 1, methods)?;
    }
    Ok(())
}

/// Keeps the method that a row is, where it is in use and has a token.
fn keep_used(
    alloc: Global,
    image: &Image<'_>,
    used: &Used<'_, '_>,
    known: &KeptNames,
    row: u32,
    methods: &mut Kept<MethodRef>,
) -> Result<(), NoMemory>
    requires used { used.now ≡ image.now }
    requires can { CanKeep image.now known.now }
    requires so { AreTrue (IsMethodOf image.now known.now) (all_of methods.old) }
    requires has { HasMethods image.now (all_of methods.old) }
    requires members { HasMemberMethods image.now known.now (all_of methods.old) }
    ensures adds { OnOk result (Adds (IsMethodOf image.now known.now) (all_of methods.old) (all_of methods.new)) }
    ensures has { OnOk result (IsInstance image.now row → Has (all_of methods.new) (token_of 0x2B row)) }
{
    if row < 0x0100_0000 && used.is_used(0x2B, row) {
        return keep_row(alloc, image, known, row, methods);
    }
    Ok(())
}

/// Keeps the method that a row in use is.
fn keep_row(
    alloc: Global,
    image: &Image<'_>,
    known: &KeptNames,
    row: u32,
    methods: &mut Kept<MethodRef>,
) -> Result<(), NoMemory>
    requires can { CanKeep image.now known.now }
    requires used { IsUsed image.now 0x2B row }
    requires few { row < 2 ^ 24 }
    requires so { AreTrue (IsMethodOf image.now known.now) (all_of methods.old) }
    requires has { HasMethods image.now (all_of methods.old) }
    requires members { HasMemberMethods image.now known.now (all_of methods.old) }
    ensures adds { OnOk result (Adds (IsMethodOf image.now known.now) (all_of methods.old) (all_of methods.new)) }
    ensures has { OnOk result (Has (all_of methods.new) (token_of 0x2B row)) }
{
    let method = method(alloc, image, known, row, methods)?;
    methods.keep(token_of(0x2B, row), method)
}

/// The method that a row in use is: another one, with arguments.
#[tactic(auto, unfolding(metadata_tables::specs::Schema::schema))]
fn method(
    alloc: Global,
    image: &Image<'_>,
    known: &KeptNames,
    row: u32,
    methods: &Kept<MethodRef>,
) -> Result<MethodRef, NoMemory>
    requires can { CanKeep image.now known.now }
    requires used { IsUsed image.now 0x2B row }
    requires few { row < 2 ^ 24 }
    requires so { AreTrue (IsMethodOf image.now known.now) (all_of methods.now) }
    requires has { HasMethods image.now (all_of methods.now) }
    requires members { HasMemberMethods image.now known.now (all_of methods.now) }
    ensures { IfOk result (IsMethodOf image.now known.now (token_of 0x2B row)) }
{
    let at = named_row(Coded::MethodDefOrRef, image.tables().cell(0x2B, row, 0));
    let generic = kept_method(methods, at.0, at.1);
    let (owner, name, sig, args) = four(
        generic.owner.copy(alloc),
        generic.name.copy(alloc),
        generic.sig.copy(alloc),
        sure(arguments_in(alloc, image, known, 0x2B, row, 1)),
    )?;
    Ok(MethodRef {
        owner,
        name,
        sig,
        args: Some(args),
    })
}

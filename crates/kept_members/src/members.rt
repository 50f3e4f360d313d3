ghost use Rattle.std.specs.Prelude.{◌≡◌, ℕ, None, IfOk, OnOk};
ghost use Rattle.kept_members.specs.Maps.{all_of};
ghost use Rattle.kept_members.specs.Members.{CanKeep, AreMembers};

use crate::declared_fields::keep_fields;
use crate::declared_methods::keep_methods;
use crate::instances::keep_instances;
use crate::references::keep_references;
use il_base::NoMemory;
use image_streams::Image;
use image_used::Used;
use kept_names::{Kept, KeptNames};
use std::alloc::Global;
use type_terms::{FieldRef, MethodRef};

/// The methods and the fields that are kept of an image, by their tokens.
#[derive(Drop)]
pub struct Members {
    /// The methods.
    pub methods: Kept<MethodRef>,
    /// The fields.
    pub fields: Kept<FieldRef>,
}

/// The methods and fields that tokens name, for each row of MethodDef and Field, and for each row of MemberRef and MethodSpec that is
/// in use and has a token (ECMA-335 II.22, III.1.9). Of `known` only the types are looked at.
///
/// # Errors
///
/// There was no memory for them.
pub fn keep_members(
    alloc: Global,
    image: &Image<'_>,
    used: &Used<'_, '_>,
    known: &KeptNames,
) -> Result<Members, NoMemory>
    requires used { used.now ≡ image.now }
    requires can { CanKeep image.now known.now }
    ensures { IfOk result (λ it. AreMembers image.now known.now (all_of it.methods) (all_of it.fields)) }
{
    let methods = Kept::new(alloc);
    let fields = Kept::new(alloc);
    let mut members = Members { methods, fields };
    fill(alloc, image, used, known, &mut members)?;
    Ok(members)
}

/// The same, where nothing is kept yet.
fn fill(
    alloc: Global,
    image: &Image<'_>,
    used: &Used<'_, '_>,
    known: &KeptNames,
    members: &mut Members,
) -> Result<(), NoMemory>
    requires used { used.now ≡ image.now }
    requires can { CanKeep image.now known.now }
    requires methods { (key : ℕ) → all_of members.old.methods key ≡ None }
    requires fields { (key : ℕ) → all_of members.old.fields key ≡ None }
    ensures { OnOk result (AreMembers image.now known.now (all_of members.new.methods) (all_of members.new.fields)) }
{
    keep_methods(alloc, image, known, &mut members.methods)?;
    keep_fields(alloc, image, known, &mut members.fields)?;
    keep_references(
        alloc,
        image,
        used,
        known,
        &mut members.methods,
        &mut members.fields,
    )?;
    keep_instances(alloc, image, used, known, &mut members.methods)
}

ghost use Rattle.std.specs.Prelude.{◌≡◌, ℕ, IfOk, OnOk, Ok, Option};
ghost use Rattle.type_terms.specs.declared.term.Owner.{Owner};
ghost use Rattle.image_model.specs.Naming.{TellsOwners};
ghost use Rattle.image_model.specs.Structure.{HasScopes};
ghost use Rattle.kept_owners.specs.Kept.{KeptAll};
ghost use Rattle.kept_owners.specs.Owners.{KeepsOwners, KeepsNoMembers};
ghost use Rattle.row_demands.specs.Structured.{MeetStructure};

use crate::plain::keep_table;
use crate::terms::keep_specs;
use heaps::one_content_at_an_index;
use il_base::NoMemory;
use image_namings::signatures_hang_on_tokens;
use image_streams::Image;
use image_used::Used;
use kept_names::KeptNames;
use row_groups::Outers;
use sig_codec::read_is_spelled;
use std::alloc::Global;

/// What the rows of an image that meets I1 to I13 name as types: each row of TypeDef and TypeRef, and each row of TypeSpec that is in use
/// and spells a type. Nothing is kept of members, locals and texts.
///
/// # Errors
///
/// There was no memory for them.
pub fn keep_owners(
    alloc: Global,
    image: &Image<'_>,
    outers: &Outers<'_, '_>,
    used: &Used<'_, '_>,
) -> Result<KeptNames, NoMemory>
    requires outers { outers.now ≡ image.now }
    requires used { used.now ≡ image.now }
    requires meets { MeetStructure image.now }
    requires scopes { (table row : ℕ) → HasScopes image.now table row }
    ensures owners { (owners : ℕ → Option Owner) → TellsOwners image.now owners → IfOk result (KeepsOwners image.now owners) }
    ensures others { IfOk result KeepsNoMembers }
{
    one_content_at_an_index();
    read_is_spelled();
    signatures_hang_on_tokens();
    let mut kept = KeptNames::new(alloc);
    let done = keep_all(alloc, image, outers, used, &mut kept);
    after(kept, done)
}

/// A value, where there was memory for what was done to it. Over type parameters, so that it is let go cheaply where there was none.
fn after<T: Drop, D: Drop>(value: T, done: Result<D, NoMemory>) -> Result<T, NoMemory>
    ensures { IfOk result (λ v. (v ≡ value) × ((d : D) × (done ≡ Ok d))) }
{
    let _ = done?;
    Ok(value)
}

/// Keeps the rows of TypeDef, of TypeRef and of TypeSpec.
fn keep_all(
    alloc: Global,
    image: &Image<'_>,
    outers: &Outers<'_, '_>,
    used: &Used<'_, '_>,
    kept: &mut KeptNames,
) -> Result<(), NoMemory>
    requires outers { outers.now ≡ image.now }
    requires used { used.now ≡ image.now }
    requires meets { MeetStructure image.now }
    requires scopes { (table row : ℕ) → HasScopes image.now table row }
    ensures { OnOk result (KeptAll image.now kept.old kept.new) }
{
    keep_table(alloc, image, outers, 0x02, kept)?;
    keep_table(alloc, image, outers, 0x01, kept)?;
    keep_specs(alloc, image, used, kept)
}

ghost use Rattle.std.specs.Prelude.{◌≡◌, ◌<◌, ◌^◌, IfOk, OnOk};
ghost use Rattle.image_model.specs.Rows.{token_of};
ghost use Rattle.image_model.specs.Used.{IsUsed};
ghost use Rattle.kept_members.specs.Maps.{all_of, Has, Adds};
ghost use Rattle.kept_texts.specs.Texts.{CanKeepLocals, AreLocalsOf, AreInUse, HasLocals, AreLocalsKept};

use heaps::one_content_at_an_index;
use il_base::NoMemory;
use image_streams::Image;
use image_used::Used;
use kept_names::{Kept, KeptNames};
use row_parts::blob_at;
use sig_codec::decode_locals;
use std::alloc::Global;
use type_terms::Types;

/// The types of locals, for each row of StandAloneSig that is in use and has a token, by the tokens (ECMA-335 II.22.36, II.23.2.6).
/// Of `known` only the types are looked at.
///
/// # Errors
///
/// There was no memory for them.
pub fn keep_locals(
    alloc: Global,
    image: &Image<'_>,
    used: &Used<'_, '_>,
    known: &KeptNames,
) -> Result<Kept<Types>, NoMemory>
    requires used { used.now ≡ image.now }
    requires can { CanKeepLocals image.now known.now }
    ensures { IfOk result (λ it. AreLocalsKept image.now known.now (all_of it)) }
{
    let mut locals = Kept::new(alloc);
    keep_rows(alloc, image, used, known, &mut locals)?;
    Ok(locals)
}

/// Keeps those of each row.
fn keep_rows(
    alloc: Global,
    image: &Image<'_>,
    used: &Used<'_, '_>,
    known: &KeptNames,
    locals: &mut Kept<Types>,
) -> Result<(), NoMemory>
    requires used { used.now ≡ image.now }
    requires can { CanKeepLocals image.now known.now }
    ensures adds { OnOk result (Adds (AreLocalsOf image.now known.now) (all_of locals.old) (all_of locals.new)) }
    ensures has { OnOk result (HasLocals image.now (all_of locals.new)) }
{
    for row in 0..image.tables().rows(0x11) {
        keep_used(alloc, image, used, known, row + 1, locals)?;
    }
    Ok(())
}

/// Keeps those of a row, where it is in use and has a token.
fn keep_used(
    alloc: Global,
    image: &Image<'_>,
    used: &Used<'_, '_>,
    known: &KeptNames,
    row: u32,
    locals: &mut Kept<Types>,
) -> Result<(), NoMemory>
    requires used { used.now ≡ image.now }
    requires can { CanKeepLocals image.now known.now }
    ensures adds { OnOk result (Adds (AreLocalsOf image.now known.now) (all_of locals.old) (all_of locals.new)) }
    ensures has { OnOk result (AreInUse image.now row → Has (all_of locals.new) (token_of 0x11 row)) }
{
    if row < 0x0100_0000 && used.is_used(0x11, row) {
        return keep_row(alloc, image, known, row, locals);
    }
    Ok(())
}

/// Keeps those of a row in use.
#[tactic(auto, unfolding(metadata_tables::specs::Schema::schema))]
fn keep_row(
    alloc: Global,
    image: &Image<'_>,
    known: &KeptNames,
    row: u32,
    locals: &mut Kept<Types>,
) -> Result<(), NoMemory>
    requires can { CanKeepLocals image.now known.now }
    requires used { IsUsed image.now 0x11 row }
    requires few { row < 2 ^ 24 }
    ensures adds { OnOk result (Adds (AreLocalsOf image.now known.now) (all_of locals.old) (all_of locals.new)) }
    ensures has { OnOk result (Has (all_of locals.new) (token_of 0x11 row)) }
{
    one_content_at_an_index();
    let bytes = blob_at(image, 0x11, row, 0);
    match decode_locals(alloc, bytes, known)? {
        Some(types) => locals.keep(0x1100_0000 + u64::from(row), types),
        None => unreachable!(),
    }
}

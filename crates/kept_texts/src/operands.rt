ghost use Rattle.std.specs.Prelude.{◌≡◌, ℕ, ◌/◌, ◌%◌, ◌^◌, List, OnOk, map};
ghost use Rattle.body_outlines.specs.declared.outlined.TokenUse.{TokenUse};
ghost use Rattle.heaps.specs.Content.{HasUnits};
ghost use Rattle.image_model.specs.Naming.{NamesText};
ghost use Rattle.image_model.specs.Streams.{user_of};
ghost use Rattle.kept_members.specs.Maps.{all_of, Has, Adds};
ghost use Rattle.kept_texts.specs.Texts.{HasTextsAt};

use body_outlines::TokenUse;
use constant_values::units_of;
use heaps::{one_content_at_an_index, user_at};
use il_base::{NoMemory, Units};
use image_streams::Image;
use kept_names::Kept;
use std::alloc::Global;

/// Keeps the user strings that operands name (III.1.9).
pub(crate) fn keep_operands(
    alloc: Global,
    image: &Image<'_>,
    uses: &[TokenUse],
    texts: &mut Kept<Units>,
) -> Result<(), NoMemory>
    ensures adds { OnOk result (Adds (NamesText image.now) (all_of texts.old) (all_of texts.new)) }
    ensures has { OnOk result (HasTextsAt image.now (map (λ (u : TokenUse). u.token) uses.now) (all_of texts.new)) }
{
    for one in uses {
        keep_token(alloc, image, one.token, texts)?;
    }
    Ok(())
}

/// Keeps the user string that a token names, where it names one that isn't kept.
fn keep_token(
    alloc: Global,
    image: &Image<'_>,
    token: u32,
    texts: &mut Kept<Units>,
) -> Result<(), NoMemory>
    ensures adds { OnOk result (Adds (NamesText image.now) (all_of texts.old) (all_of texts.new)) }
    ensures has { OnOk result ((units : List ℕ) → NamesText image.now token units → Has (all_of texts.new) token) }
{
    if token / 0x0100_0000 != 0x70 {
        return Ok(());
    }
    match texts.get(u64::from(token)) {
        Some(_) => Ok(()),
        None => keep_text(alloc, image, token, texts),
    }
}

/// Keeps the user string that a token of the heap names.
fn keep_text(
    alloc: Global,
    image: &Image<'_>,
    token: u32,
    texts: &mut Kept<Units>,
) -> Result<(), NoMemory>
    requires { token / 2 ^ 24 ≡ 0x70 }
    ensures adds { OnOk result (Adds (NamesText image.now) (all_of texts.old) (all_of texts.new)) }
    ensures has { OnOk result ((units : List ℕ) → NamesText image.now token units → Has (all_of texts.new) token) }
{
    match user_at(image.user(), token % 0x0100_0000) {
        Some(bytes) => keep_units(alloc, image, token, bytes, texts),
        None => Ok(()),
    }
}

/// Keeps the user string whose bytes these are.
fn keep_units(
    alloc: Global,
    image: &Image<'_>,
    token: u32,
    bytes: &[u8],
    texts: &mut Kept<Units>,
) -> Result<(), NoMemory>
    requires table { token / 2 ^ 24 ≡ 0x70 }
    requires bytes { HasUnits (user_of image.now) (token % 2 ^ 24) bytes.now }
    ensures adds { OnOk result (Adds (NamesText image.now) (all_of texts.old) (all_of texts.new)) }
    ensures has { OnOk result ((units : List ℕ) → NamesText image.now token units → Has (all_of texts.new) token) }
{
    one_content_at_an_index();
    match units_of(alloc, bytes)? {
        Some(units) => texts.keep(u64::from(token), units),
        None => Ok(()),
    }
}

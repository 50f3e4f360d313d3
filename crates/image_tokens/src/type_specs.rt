//! The tokens of types that are made from others (ECMA-335 II.22.39).
ghost use Rattle.std.specs.Prelude.{◌≡◌, ◌+◌, ◌^◌, ◌≤◌, None, IfOk};
ghost use Rattle.sig_codec.specs.Spellable.{HasSpelling};
ghost use Rattle.sig_codec.specs.Spelling.{SpellsType};
ghost use Rattle.image_tokens.specs.Bounds.{IsTypeInBounds};
ghost use Rattle.image_tokens.specs.Found.{token_in};
ghost use Rattle.image_tokens.specs.KnownTokens.{types_apart};
ghost use Rattle.image_tokens.specs.Noted.{longest, IsSpecified};
ghost use Rattle.image_tokens.specs.References.{tokens_of, size, AreKnown, HasSignature};

use crate::blobs::refer_blob;
use crate::references::References;
use crate::row_set::Cells;
use crate::tokens::{TYPE_SPEC, token_of};
use il_base::NoMemory;
use sig_codec::encode_type;
use std::alloc::Global;
use type_terms::SigType;

/// The token of a type, whose names have tokens; it is given one where it has none.
pub fn refer_type<'a>(
    alloc: Global,
    refs: &mut References<'a>,
    of: &'a SigType,
) -> Result<u32, NoMemory>
    requires known { AreKnown refs.old }
    requires spelled { HasSpelling (tokens_of refs.old) of.now }
    requires in_bounds { IsTypeInBounds of.now }
    requires room { size refs.old + (longest of.now + 12) ≤ 2 ^ 26 }
    ensures { IfOk result (IsSpecified refs.old refs.new of.now (longest of.now + 12)) }
{
    if let Some(token) = refs.known.specs.find(of) {
        return Ok(token);
    }
    let bytes = encode_type(alloc, of, &refs.known)?;
    let blob = refer_blob(refs, bytes.as_slice())?;
    add_row(refs, of, blob)
}

/// Adds the row of a type that has no token, with the blob of its signature.
fn add_row<'a>(refs: &mut References<'a>, of: &'a SigType, blob: u32) -> Result<u32, NoMemory>
    requires known { AreKnown refs.old }
    requires lacks { token_in types_apart refs.old.known.specs of.now ≡ None }
    requires signature { HasSignature SpellsType refs.old of.now blob }
    requires in_bounds { IsTypeInBounds of.now }
    requires room { size refs.old + 8 ≤ 2 ^ 26 }
    ensures { IfOk result (IsSpecified refs.old refs.new of.now 4) }
{
    let row = refs.referred.specs.number(Cells {
        first: blob,
        second: 0,
        third: 0,
    })?;
    let token = token_of(TYPE_SPEC, row);
    refs.known.specs.add(of, token)?;
    Ok(token)
}

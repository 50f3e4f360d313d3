//! The tokens of locals (ECMA-335 II.22.36).
ghost use Rattle.std.specs.Prelude.{◌≡◌, ◌+◌, ◌^◌, ◌≤◌, length, sum_by, IfOk};
ghost use Rattle.assembly_tree.specs.Weight.{type_weight};
ghost use Rattle.sig_codec.specs.Signature.{SpellsLocals};
ghost use Rattle.sig_codec.specs.Spellable.{CanBePacked};
ghost use Rattle.image_tokens.specs.Bounds.{AreTypesInBounds};
ghost use Rattle.image_tokens.specs.Members.{Leaves, HasLocals};
ghost use Rattle.image_tokens.specs.References.{size, AreKnown, HasSignature};
ghost use Rattle.image_tokens.specs.Writable.{AreWritable};

use crate::references::References;
use crate::row_set::Cells;
use crate::signatures::locals_signature;
use crate::tokens::{STAND_ALONE_SIG, token_of};
use il_base::NoMemory;
use std::alloc::Global;
use type_terms::Types;

/// The token of locals, which is given to them where they have none.
pub fn refer_locals<'a>(
    alloc: Global,
    refs: &mut References<'a>,
    locals: &'a Types,
) -> Result<u32, NoMemory>
    requires known { AreKnown refs.old }
    requires writable { AreWritable refs.old locals.now }
    requires count { CanBePacked (length locals.now) }
    requires in_bounds { AreTypesInBounds locals.now }
    requires room { size refs.old + (sum_by type_weight locals.now + 17) ≤ 2 ^ 26 }
    ensures { IfOk result (Leaves (HasLocals locals.now) refs.old refs.new (sum_by type_weight locals.now + 17)) }
{
    if let Some(token) = refs.known.locals.find(locals) {
        return Ok(token);
    }
    let signature = locals_signature(alloc, refs, locals)?;
    give_locals(refs, locals, signature)
}

/// Gives locals the token of the row of StandAloneSig with their signature.
fn give_locals<'a>(
    refs: &mut References<'a>,
    locals: &'a Types,
    signature: u32,
) -> Result<u32, NoMemory>
    requires known { AreKnown refs.old }
    requires signature_is { HasSignature SpellsLocals refs.old locals.now signature }
    requires in_bounds { AreTypesInBounds locals.now }
    requires room { size refs.old + 8 ≤ 2 ^ 26 }
    ensures { IfOk result (Leaves (HasLocals locals.now) refs.old refs.new 4) }
{
    let row = refs.referred.locals.number(Cells {
        first: signature,
        second: 0,
        third: 0,
    })?;
    refs.known
        .locals
        .give(locals, token_of(STAND_ALONE_SIG, row))
}

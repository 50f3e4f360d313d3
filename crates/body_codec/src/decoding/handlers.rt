ghost use Rattle.std.specs.Prelude.{◌≡◌, ◌≤◌, List, length, IfOk, IfErr};
ghost use Rattle.std.specs.List.{All};
ghost use Rattle.body_codec.specs.Instruction.{Piece};
ghost use Rattle.body_codec.specs.Names.{name_map, reading};
ghost use Rattle.body_codec.specs.Sections.{SpellsKind, SpellsClauses};
ghost use Rattle.body_codec.specs.Faults.{Catches};
ghost use Rattle.body_codec.specs.ReadingClauses.{IsFound, HasFilter, rows_of, IsCatchAt, IsCatchFault};

use super::sections::Found;
use crate::BodyFault;
use assembly_tree::{Clause, ClauseKind, Clauses};
use il_lists::{Copies, Items};
use sig_codec::Namer;
use std::alloc::Global;

/// The exception clauses of a body, or the first catch whose token isn't known.
pub(crate) fn read_handlers<N: Namer>(
    alloc: Global,
    found: &[Found],
    map: &N,
) -> Result<Clauses, BodyFault>
    requires { length found.now ≤ 65535 }
    ensures spelled { IfOk result (λ clauses. (pieces : List Piece) → All (IsFound pieces) found.now
        → SpellsClauses (reading (name_map (N.owners map.now) (N.methods map.now) (N.fields map.now) (N.locals map.now) (N.texts map.now))) pieces (rows_of found.now) clauses) }
    ensures fault { IfErr result (IsCatchFault (name_map (N.owners map.now) (N.methods map.now) (N.fields map.now) (N.locals map.now) (N.texts map.now)) (rows_of found.now)) }
{
    let mut clauses = Items::with_capacity(alloc, found.len())?;
    for one in found {
        let kind = read_kind(alloc, one, map)?;
        let region = one.region;
        clauses.push(Clause {
            kind,
            try_start: region.try_start,
            try_end: region.try_end,
            handler_start: region.handler_start,
            handler_end: region.handler_end,
        })?;
    }
    Ok(clauses)
}

/// What a clause handles.
fn read_kind<N: Namer>(alloc: Global, found: &Found, map: &N) -> Result<ClauseKind, BodyFault>
    ensures spelled { IfOk result (λ kind. (pieces : List Piece) → HasFilter pieces found.now.row found.now.region.handler_start found.now.region.filter
        → SpellsKind (reading (name_map (N.owners map.now) (N.methods map.now) (N.fields map.now) (N.locals map.now) (N.texts map.now))) pieces found.now.row found.now.region.handler_start kind) }
    ensures caught { IfOk result (λ _. Catches (name_map (N.owners map.now) (N.methods map.now) (N.fields map.now) (N.locals map.now) (N.texts map.now)) found.now.row) }
    ensures fault { IfErr result (IsCatchAt (name_map (N.owners map.now) (N.methods map.now) (N.fields map.now) (N.locals map.now) (N.texts map.now)) found.now.row) }
{
    match found.row.kind {
        0 => match map.owner_of(found.row.class_or_filter) {
            None => Err(BodyFault::Token {
                offset: found.row.handler_offset,
            }),
            Some(owner) => {
                let owner = owner.copy(alloc)?;
                Ok(ClauseKind::Catch(owner))
            }
        },
        1 => Ok(ClauseKind::Filter(found.region.filter)),
        2 => Ok(ClauseKind::Finally),
        _ => Ok(ClauseKind::Fault),
    }
}

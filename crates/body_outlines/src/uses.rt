ghost use Rattle.std.specs.Prelude.{◌≡◌, ◌++◌, [], IfOk, OnOk};
ghost use Rattle.std.specs.List.{All, filter_map, cons_option};
ghost use Rattle.body_codec.specs.Reading.{piece_of, pieces_of, IsMark};
ghost use Rattle.body_codec.specs.ReadingClauses.{rows_of};
ghost use Rattle.body_codec.specs.NamedTokens.{caught_in};
ghost use Rattle.body_outlines.specs.Outlines.{use_in};

use crate::forms::{kind, takes_token};
use crate::outlined::{TokenUse, TokenUses};
use body_codec::{ClauseRow, Found, Mark};
use byteorder::{ByteOrder, LittleEndian};
use il_lists::{Items, NoMemory, Numbers};
use std::alloc::Global;

/// The tokens of the operands, in order.
pub(crate) fn operands_of(alloc: Global, code: &[u8], marks: &[Mark]) -> Result<TokenUses, NoMemory>
    requires { All (IsMark code.now) marks.now }
    ensures { IfOk result (λ uses. uses ≡ filter_map use_in (pieces_of code.now marks.now)) }
{
    let mut uses = Items::new(alloc);
    for mark in marks {
        push_operand(&mut uses, code, mark)?;
    }
    Ok(uses)
}

/// Adds the token of an operand, where it is one.
#[tactic(auto, using(crate::proofs::OperandUses::use_steps))]
fn push_operand(uses: &mut TokenUses, code: &[u8], mark: &Mark) -> Result<(), NoMemory>
    requires { IsMark code.now mark.now }
    ensures { OnOk result (uses.new ≡ uses.old ++ cons_option (use_in (piece_of code.now mark.now)) []) }
{
    let kind = kind(mark.op);
    if !takes_token(kind) {
        return Ok(());
    }
    let token = LittleEndian::read_u32(&code[mark.operand as usize..mark.end as usize]);
    uses.push(TokenUse { kind, token })
}

/// The tokens of the catches, in order.
pub(crate) fn catches_of(alloc: Global, found: &[Found]) -> Result<Numbers, NoMemory>
    ensures { IfOk result (λ tokens. tokens ≡ filter_map caught_in (rows_of found.now)) }
{
    let mut tokens = Items::new(alloc);
    for one in found {
        push_catch(&mut tokens, &one.row)?;
    }
    Ok(tokens)
}

/// Adds the token of a catch, where the clause is one.
#[tactic(auto, using(body_codec::proofs::Tokens::catch_steps))]
fn push_catch(tokens: &mut Numbers, row: &ClauseRow) -> Result<(), NoMemory>
    ensures { OnOk result (tokens.new ≡ tokens.old ++ cons_option (caught_in row.now) []) }
{
    if row.kind != 0 {
        return Ok(());
    }
    tokens.push(row.class_or_filter)
}

ghost use Rattle.std.specs.Prelude.{◌≡◌, ◌≢◌, ◌++◌, [], ℕ, List, IfOk, IfErr, OnOk};
ghost use Rattle.body_codec.specs.declared.fault.BodyFault.{BodyFault};
ghost use Rattle.body_codec.specs.Names.{takes_token};
ghost use Rattle.std.specs.List.{filter_map, cons_option, All};
ghost use Rattle.body_codec.specs.NamedTokens.{AreNamed, locals_in, token_in, caught_in};
ghost use Rattle.body_codec.specs.Faults.{IsFaultOfAll, Answers};
ghost use Rattle.body_codec.specs.Reading.{piece_of, pieces_of, IsMark};
ghost use Rattle.body_codec.specs.ReadingClauses.{rows_of};

use super::header::{code_in, read_header};
use super::marks::Mark;
use super::opcode::kind;
use super::outline::read_outline;
use super::sections::{ClauseRow, Found};
use crate::BodyFault;
use byteorder::{ByteOrder, LittleEndian};
use il_lists::{Items, NoMemory, Numbers};
use opcode_table::OperandKind;
use std::alloc::Global;

/// The tokens that the body at the front of these bytes names: that of its locals where it isn't 0, then those of the
/// operands and of the catches, each in order (ECMA-335 II.25.4, III.1.9).
///
/// # Errors
///
/// Those of `decode` over a namer that knows every token; `Token` and `Far` never come.
pub fn named_tokens(alloc: Global, bytes: &[u8]) -> Result<Numbers, BodyFault>
    ensures tokens { IfOk result (AreNamed bytes.now) }
    ensures fault { IfErr result (IsFaultOfAll bytes.now) }
    ensures only_tokens { (tokens : List ℕ) → AreNamed bytes.now tokens → Answers result (Ok tokens) }
    ensures only_fault { (fault : BodyFault) → fault ≢ BodyFault.NoMemory → IsFaultOfAll bytes.now fault → Answers result (Err fault) }
{
    read_tokens(alloc, bytes)
}

/// The same, stage by stage.
fn read_tokens(alloc: Global, bytes: &[u8]) -> Result<Numbers, BodyFault>
    ensures tokens { IfOk result (AreNamed bytes.now) }
    ensures fault { IfErr result (IsFaultOfAll bytes.now) }
{
    let Some(header) = read_header(bytes) else {
        return Err(BodyFault::Header);
    };
    let outline = read_outline(alloc, bytes, &header)?;
    let mut tokens = first_token(alloc, header.locals)?;
    let code = code_in(bytes, &header);
    let marks = outline.marks.as_slice();
    push_operands(&mut tokens, code, marks)?;
    let found = outline.clauses.found.as_slice();
    push_catches(&mut tokens, found)?;
    Ok(tokens)
}

/// The token of the locals, where it isn't 0.
fn first_token(alloc: Global, locals: u32) -> Result<Numbers, NoMemory>
    ensures { IfOk result (λ tokens. tokens ≡ locals_in locals) }
{
    let mut tokens = Items::new(alloc);
    if locals != 0 {
        tokens.push(locals)?;
    }
    Ok(tokens)
}

/// Adds the tokens of the operands.
fn push_operands(tokens: &mut Numbers, code: &[u8], marks: &[Mark]) -> Result<(), NoMemory>
    requires { All (IsMark code.now) marks.now }
    ensures { OnOk result (tokens.new ≡ tokens.old ++ filter_map token_in (pieces_of code.now marks.now)) }
{
    for mark in marks {
        push_operand(tokens, code, mark)?;
    }
    Ok(())
}

/// Adds the token of an operand, where it is one.
#[tactic(auto, using(crate::proofs::Tokens::token_steps))]
fn push_operand(tokens: &mut Numbers, code: &[u8], mark: &Mark) -> Result<(), NoMemory>
    requires { IsMark code.now mark.now }
    ensures { OnOk result (tokens.new ≡ tokens.old ++ cons_option (token_in (piece_of code.now mark.now)) []) }
{
    if !takes_token(kind(mark.op)) {
        return Ok(());
    }
    let token = LittleEndian::read_u32(&code[mark.operand as usize..mark.end as usize]);
    tokens.push(token)
}

/// Whether an operand of this kind is a token.
fn takes_token(kind: OperandKind) -> bool
    ensures { result ≡ takes_token kind }
{
    matches!(
        kind,
        OperandKind::Method
            | OperandKind::Field
            | OperandKind::Of
            | OperandKind::Text
            | OperandKind::Token
    )
}

/// Adds the tokens of the catches.
fn push_catches(tokens: &mut Numbers, found: &[Found]) -> Result<(), NoMemory>
    ensures { OnOk result (tokens.new ≡ tokens.old ++ filter_map caught_in (rows_of found.now)) }
{
    for one in found {
        push_catch(tokens, &one.row)?;
    }
    Ok(())
}

/// Adds the token of a catch, where the clause is one.
#[tactic(auto, using(crate::proofs::Tokens::catch_steps))]
fn push_catch(tokens: &mut Numbers, row: &ClauseRow) -> Result<(), NoMemory>
    ensures { OnOk result (tokens.new ≡ tokens.old ++ cons_option (caught_in row.now) []) }
{
    if row.kind != 0 {
        return Ok(());
    }
    tokens.push(row.class_or_filter)
}

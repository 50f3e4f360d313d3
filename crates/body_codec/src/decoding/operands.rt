ghost use Rattle.std.specs.Prelude.{◌≡◌, ◌+◌, ◌≤◌, ◌<◌, ℕ, length, IfOk, IfErr};
ghost use Rattle.std.specs.Option.{option_map, option_or};
ghost use Rattle.opcode_table.specs.declared.kind.OperandKind.TheVariants as kinds;
ghost use Rattle.assembly_tree.specs.declared.body.Operand.TheVariants as operands;
ghost use Rattle.body_codec.specs.Instruction.{place, kind, number};
ghost use Rattle.body_codec.specs.Names.{name_map, named, reading};
ghost use Rattle.body_codec.specs.Spelling.{SpellsOperand, SpellsEach};
ghost use Rattle.body_codec.specs.Faults.{HaveTargets};
ghost use Rattle.body_codec.specs.Reading.{pieces_of, piece_of, IsLayout, IsMark, IsAimed, IsTokenAt, IsNameFault};

use super::layout::Layout;
use super::marks::Mark;
use super::opcode::kind;
use super::targets::{branch_target, switch_targets};
use crate::BodyFault;
use assembly_tree::{Code, Ins, Operand};
use byteorder::{ByteOrder, LittleEndian};
use il_lists::{Boxed, Copies, Items, NoMemory};
use opcode_table::OperandKind;
use sig_codec::Namer;
use std::alloc::Global;

/// The instructions of the code, with the names of their tokens, or the first whose token isn't known.
pub(crate) fn read_code<N: Namer>(
    alloc: Global,
    layout: &Layout<'_>,
    map: &N,
) -> Result<Code, BodyFault>
    requires layout { IsLayout layout.now.code.now layout.now.marks.now layout.now.starts.now }
    requires targets { HaveTargets (pieces_of layout.now.code.now layout.now.marks.now) (length layout.now.marks.now) }
    ensures spelled { IfOk result (SpellsEach (reading (name_map (N.owners map.now) (N.methods map.now) (N.fields map.now) (N.locals map.now) (N.texts map.now)))
        (pieces_of layout.now.code.now layout.now.marks.now)) }
    ensures fault { IfErr result (IsNameFault (name_map (N.owners map.now) (N.methods map.now) (N.fields map.now) (N.locals map.now) (N.texts map.now))
        (pieces_of layout.now.code.now layout.now.marks.now)) }
{
    let mut code = Items::with_capacity(alloc, layout.marks.len())?;
    for (k, mark) in layout.marks.iter().enumerate() {
        let operand = read_operand(alloc, layout, mark, map)?;
        let op = mark.op;
        code.push(Ins { op, operand })?;
    }
    Ok(code)
}

/// The operand of an instruction.
fn read_operand<N: Namer>(
    alloc: Global,
    layout: &Layout<'_>,
    mark: &Mark,
    map: &N,
) -> Result<Operand, BodyFault>
    requires layout { IsLayout layout.now.code.now layout.now.marks.now layout.now.starts.now }
    requires mark { IsMark layout.now.code.now mark.now }
    requires aimed { IsAimed (pieces_of layout.now.code.now layout.now.marks.now) mark.now (piece_of layout.now.code.now mark.now) }
    ensures spelled { IfOk result (λ operand. (k : ℕ) → place (pieces_of layout.now.code.now layout.now.marks.now) (k + 1) ≡ mark.now.end
        → SpellsOperand (reading (name_map (N.owners map.now) (N.methods map.now) (N.fields map.now) (N.locals map.now) (N.texts map.now)))
        (pieces_of layout.now.code.now layout.now.marks.now) k (kind mark.now.op) (piece_of layout.now.code.now mark.now).tail operand) }
    ensures fault { IfErr result (IsTokenAt (name_map (N.owners map.now) (N.methods map.now) (N.fields map.now) (N.locals map.now) (N.texts map.now))
        (piece_of layout.now.code.now mark.now) mark.now.start) }
{
    let tail = layout.tail(mark);
    match kind(mark.op) {
        OperandKind::Nothing => Ok(Operand::Nothing),
        OperandKind::Var8 | OperandKind::Var16 => Ok(Operand::Var(variable(tail))),
        OperandKind::Num8 | OperandKind::Num32 | OperandKind::Num64 => {
            Ok(Operand::Int(LittleEndian::read_int(tail, tail.len())))
        }
        OperandKind::Byte => Ok(Operand::Int(i64::from(tail[0]))),
        OperandKind::Real4 | OperandKind::Real8 => {
            Ok(Operand::Real(LittleEndian::read_uint(tail, tail.len())))
        }
        OperandKind::Branch8 | OperandKind::Branch32 => {
            Ok(Operand::Target(branch_target(layout, mark).unwrap()))
        }
        OperandKind::Switch => {
            let targets = switch_targets(alloc, layout, mark)?;
            let targets = Boxed::new(alloc, targets)?;
            Ok(Operand::Targets(targets))
        }
        kind => {
            let named = name_of(alloc, kind, LittleEndian::read_u32(tail), map)?;
            named.ok_or(BodyFault::Token { offset: mark.start })
        }
    }
}

/// The number of a local or an argument.
fn variable(tail: &[u8]) -> u16
    requires some { 1 ≤ length tail.now }
    requires few { length tail.now ≤ 2 }
    ensures { result ≡ number tail.now }
{
    if tail.len() == 1 {
        u16::from(tail[0])
    } else {
        LittleEndian::read_u16(tail)
    }
}

/// What a token names as an operand of this kind.
fn name_of<N: Namer>(
    alloc: Global,
    kind: OperandKind,
    token: u32,
    map: &N,
) -> Result<Option<Operand>, NoMemory>
    ensures { IfOk result (λ name. name ≡ named (name_map (N.owners map.now) (N.methods map.now) (N.fields map.now) (N.locals map.now) (N.texts map.now)) kind token) }
{
    match kind {
        OperandKind::Method => method_of(alloc, token, map),
        OperandKind::Field => field_of(alloc, token, map),
        OperandKind::Of => type_of(alloc, token, map),
        OperandKind::Text => text_of(alloc, token, map),
        OperandKind::Token => handle_of(alloc, token, map),
        _ => Ok(None),
    }
}

/// The method, field or type of `ldtoken` (ECMA-335 III.4.17).
fn handle_of<N: Namer>(alloc: Global, token: u32, map: &N) -> Result<Option<Operand>, NoMemory>
    ensures { IfOk result (λ name. name ≡ named (name_map (N.owners map.now) (N.methods map.now) (N.fields map.now) (N.locals map.now) (N.texts map.now)) kinds.Token token) }
{
    match method_of(alloc, token, map)? {
        Some(method) => Ok(Some(method)),
        None => member_of(alloc, token, map),
    }
}

/// The field or type that a token names.
fn member_of<N: Namer>(alloc: Global, token: u32, map: &N) -> Result<Option<Operand>, NoMemory>
    ensures { IfOk result (λ name. name ≡ option_or (option_map operands.Field (N.fields map.now token)) (option_map operands.Of (N.owners map.now token))) }
{
    match field_of(alloc, token, map)? {
        Some(field) => Ok(Some(field)),
        None => type_of(alloc, token, map),
    }
}

/// The method that a token names.
fn method_of<N: Namer>(alloc: Global, token: u32, map: &N) -> Result<Option<Operand>, NoMemory>
    ensures { IfOk result (λ name. name ≡ option_map operands.Method (N.methods map.now token)) }
{
    match map.method_of(token) {
        None => Ok(None),
        Some(method) => {
            let method = method.copy(alloc)?;
            let method = Boxed::new(alloc, method)?;
            Ok(Some(Operand::Method(method)))
        }
    }
}

/// The field that a token names.
fn field_of<N: Namer>(alloc: Global, token: u32, map: &N) -> Result<Option<Operand>, NoMemory>
    ensures { IfOk result (λ name. name ≡ option_map operands.Field (N.fields map.now token)) }
{
    match map.field_of(token) {
        None => Ok(None),
        Some(field) => {
            let field = field.copy(alloc)?;
            let field = Boxed::new(alloc, field)?;
            Ok(Some(Operand::Field(field)))
        }
    }
}

/// The type that a token names.
fn type_of<N: Namer>(alloc: Global, token: u32, map: &N) -> Result<Option<Operand>, NoMemory>
    ensures { IfOk result (λ name. name ≡ option_map operands.Of (N.owners map.now token)) }
{
    match map.owner_of(token) {
        None => Ok(None),
        Some(owner) => {
            let owner = owner.copy(alloc)?;
            let owner = Boxed::new(alloc, owner)?;
            Ok(Some(Operand::Of(owner)))
        }
    }
}

/// The text that a token names.
fn text_of<N: Namer>(alloc: Global, token: u32, map: &N) -> Result<Option<Operand>, NoMemory>
    ensures { IfOk result (λ name. name ≡ option_map operands.Text (N.texts map.now token)) }
{
    match map.text_of(token) {
        None => Ok(None),
        Some(units) => {
            let units = units.copy(alloc)?;
            let units = Boxed::new(alloc, units)?;
            Ok(Some(Operand::Text(units)))
        }
    }
}

//! Tokens for what a body names: its locals, what its instructions name, and what its clauses catch
//! (ECMA-335 II.25.4, III.1.9).
ghost use Rattle.std.specs.Prelude.{◌≡◌, ◌+◌, ◌*◌, ◌^◌, ◌≤◌, length, sum_by, OnOk};
ghost use Rattle.std.specs.List.{AllByRecursion};
ghost use Rattle.assembly_tree.specs.Weight.{type_weight, handled_weight};
ghost use Rattle.sig_codec.specs.Spellable.{CanBePacked};
ghost use Rattle.image_tokens.specs.BodyTokens.{HasOperandToken, HasInstructionToken, HasHandledToken, HasClauseToken, HaveLocalsToken, HasBodyTokens, Notes};
ghost use Rattle.image_tokens.specs.Bounds.{AreTypesInBounds};
ghost use Rattle.image_tokens.specs.NamesWeight.{named_weight, instruction_names, clause_names, names_weight};
ghost use Rattle.image_tokens.specs.References.{size, AreKnown};
ghost use Rattle.image_tokens.specs.Writable.{AreWritable, IsOperandWritable, IsInstructionWritable, IsHandledWritable, IsClauseWritable, IsBodyWritable};

use crate::locals::refer_locals;
use crate::members::refer_field;
use crate::methods::refer_method;
use crate::noting::refer_owner;
use crate::references::References;
use crate::user_texts::refer_loaded;
use assembly_tree::{Body, Clause, ClauseKind, Ins, Operand};
use il_base::NoMemory;
use std::alloc::Global;
use type_terms::Types;

/// Gives a token to all that a body names.
pub fn note_body<'a>(
    alloc: Global,
    refs: &mut References<'a>,
    body: &'a Body,
) -> Result<(), NoMemory>
    requires known { AreKnown refs.old }
    requires writable { IsBodyWritable refs.old body.now }
    requires room { size refs.old + names_weight body.now ≤ 2 ^ 26 }
    ensures { OnOk result (Notes (λ r. HasBodyTokens r body.now) refs.old refs.new (names_weight body.now)) }
{
    note_locals(alloc, refs, &body.locals)?;
    note_code(alloc, refs, body.code.as_slice())?;
    note_clauses(alloc, refs, body.clauses.as_slice())
}

/// Gives a token to locals, where there are any.
fn note_locals<'a>(
    alloc: Global,
    refs: &mut References<'a>,
    locals: &'a Types,
) -> Result<(), NoMemory>
    requires known { AreKnown refs.old }
    requires writable { AreWritable refs.old locals.now }
    requires count { CanBePacked (length locals.now) }
    requires in_bounds { AreTypesInBounds locals.now }
    requires room { size refs.old + (64 * length locals.now + sum_by type_weight locals.now) ≤ 2 ^ 26 }
    ensures { OnOk result (Notes (λ r. HaveLocalsToken r locals.now) refs.old refs.new (64 * length locals.now + sum_by type_weight locals.now)) }
{
    if locals.is_empty() {
        return Ok(());
    }
    refer_locals(alloc, refs, locals)?;
    Ok(())
}

/// Gives a token to what each instruction names.
fn note_code<'a>(alloc: Global, refs: &mut References<'a>, code: &'a [Ins]) -> Result<(), NoMemory>
    requires known { AreKnown refs.old }
    requires writable { AllByRecursion (IsInstructionWritable refs.old) code.now }
    requires room { size refs.old + sum_by instruction_names code.now ≤ 2 ^ 26 }
    ensures { OnOk result (Notes (λ r. AllByRecursion (HasInstructionToken r) code.now) refs.old refs.new (sum_by instruction_names code.now)) }
{
    for ins in code {
        note_operand(alloc, refs, &ins.operand)?;
    }
    Ok(())
}

/// Gives a token to what an instruction names.
fn note_operand<'a>(
    alloc: Global,
    refs: &mut References<'a>,
    operand: &'a Operand,
) -> Result<(), NoMemory>
    requires known { AreKnown refs.old }
    requires writable { IsOperandWritable refs.old operand.now }
    requires room { size refs.old + named_weight operand.now ≤ 2 ^ 26 }
    ensures { OnOk result (Notes (λ r. HasOperandToken r operand.now) refs.old refs.new (named_weight operand.now)) }
{
    match operand {
        Operand::Method(method) => {
            refer_method(alloc, refs, method.get())?;
            Ok(())
        }
        Operand::Field(field) => {
            refer_field(alloc, refs, field.get())?;
            Ok(())
        }
        Operand::Of(owner) => {
            refer_owner(alloc, refs, owner.get())?;
            Ok(())
        }
        Operand::Text(units) => {
            refer_loaded(alloc, refs, units.get())?;
            Ok(())
        }
        Operand::Nothing
        | Operand::Var(_)
        | Operand::Int(_)
        | Operand::Real(_)
        | Operand::Target(_)
        | Operand::Targets(_) => Ok(()),
    }
}

/// Gives a token to what each clause catches.
fn note_clauses<'a>(
    alloc: Global,
    refs: &mut References<'a>,
    clauses: &'a [Clause],
) -> Result<(), NoMemory>
    requires known { AreKnown refs.old }
    requires writable { AllByRecursion (IsClauseWritable refs.old) clauses.now }
    requires room { size refs.old + sum_by clause_names clauses.now ≤ 2 ^ 26 }
    ensures { OnOk result (Notes (λ r. AllByRecursion (HasClauseToken r) clauses.now) refs.old refs.new (sum_by clause_names clauses.now)) }
{
    for clause in clauses {
        note_handled(alloc, refs, &clause.kind)?;
    }
    Ok(())
}

/// Gives a token to what a clause catches.
fn note_handled<'a>(
    alloc: Global,
    refs: &mut References<'a>,
    kind: &'a ClauseKind,
) -> Result<(), NoMemory>
    requires known { AreKnown refs.old }
    requires writable { IsHandledWritable refs.old kind.now }
    requires room { size refs.old + handled_weight kind.now ≤ 2 ^ 26 }
    ensures { OnOk result (Notes (λ r. HasHandledToken r kind.now) refs.old refs.new (handled_weight kind.now)) }
{
    match kind {
        ClauseKind::Catch(owner) => {
            refer_owner(alloc, refs, owner)?;
            Ok(())
        }
        ClauseKind::Filter(_) | ClauseKind::Finally | ClauseKind::Fault => Ok(()),
    }
}

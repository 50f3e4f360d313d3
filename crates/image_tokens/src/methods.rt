//! The tokens of methods, generic ones with their arguments besides (ECMA-335 II.22.25, II.22.29).
ghost use Rattle.std.specs.Prelude.{◌≡◌, ◌≢◌, ◌+◌, ◌^◌, ◌≤◌, [], length, Some, IfOk};
ghost use Rattle.assembly_tree.specs.Weight.{owner_weight, signature_weight, method_ref_weight};
ghost use Rattle.sig_codec.specs.Signature.{SpellsMethod};
ghost use Rattle.image_tokens.specs.Bounds.{IsMethodInBounds, AreArgumentsInBounds};
ghost use Rattle.image_tokens.specs.Members.{Leaves, HasMethod, HasArguments, instance_weight, IsInstanceOf};
ghost use Rattle.image_tokens.specs.References.{tokens_of, size, AreKnown, HasSignature, HasGenericToken, IsMethodToken};
ghost use Rattle.image_tokens.specs.Texts.{HoldsText};
ghost use Rattle.image_tokens.specs.Writable.{AreArgumentsWritable, IsMethodRefWritable};

use crate::members::{member_token, refer_place};
use crate::references::References;
use crate::row_set::Cells;
use crate::signatures::{arguments_signature, method_signature};
use crate::tokens::{METHOD_DEF, METHOD_SPEC, index_of_token, token_of};
use il_base::NoMemory;
use metadata_tables::Coded;
use std::alloc::Global;
use type_terms::MethodRef;

/// The token of a method, which is given to it where it has none.
pub fn refer_method<'a>(
    alloc: Global,
    refs: &mut References<'a>,
    method: &'a MethodRef,
) -> Result<u32, NoMemory>
    requires known { AreKnown refs.old }
    requires writable { IsMethodRefWritable refs.old method.now }
    requires room { size refs.old + method_ref_weight method.now ≤ 2 ^ 26 }
    ensures { IfOk result (Leaves (HasMethod method.now) refs.old refs.new (method_ref_weight method.now)) }
{
    if let Some(token) = refs.known.methods.find(method) {
        return Ok(token);
    }
    let generic = generic_token(alloc, refs, method)?;
    let token = instance_token(alloc, refs, method, generic)?;
    give_method(refs, method, token)
}

/// The token of a method without its arguments.
fn generic_token<'a>(
    alloc: Global,
    refs: &mut References<'a>,
    method: &'a MethodRef,
) -> Result<u32, NoMemory>
    requires known { AreKnown refs.old }
    requires writable { IsMethodRefWritable refs.old method.now }
    requires room { size refs.old + (owner_weight method.now.owner + length method.now.name + signature_weight method.now.sig + 21) ≤ 2 ^ 26 }
    ensures { IfOk result (Leaves (λ r. HasGenericToken r method.now) refs.old refs.new (owner_weight method.now.owner + length method.now.name + signature_weight method.now.sig + 21)) }
{
    let at = refer_place(alloc, refs, &method.owner, &method.name)?;
    let signature = method_signature(alloc, refs, &method.sig)?;
    row_token(refs, method, at.0, at.1, signature)
}

/// The token of a method's row, by the row's cells.
fn row_token<'a>(
    refs: &mut References<'a>,
    _method: &'a MethodRef,
    owner: u32,
    name: u32,
    signature: u32,
) -> Result<u32, NoMemory>
    requires known { AreKnown refs.old }
    requires owner_is { tokens_of refs.old _method.now.owner ≡ Some owner }
    requires name_is { HoldsText refs.old.heaps.strings _method.now.name name }
    requires signature_is { HasSignature SpellsMethod refs.old _method.now.sig signature }
    requires named { _method.now.name ≢ [] }
    requires in_bounds { IsMethodInBounds _method.now.sig }
    requires room { size refs.old + 12 ≤ 2 ^ 26 }
    ensures { IfOk result (Leaves (λ r. HasGenericToken r _method.now) refs.old refs.new 12) }
{
    member_token(
        &mut refs.declared.methods,
        &mut refs.referred.members,
        METHOD_DEF,
        owner,
        name,
        signature,
    )
}

/// The token of a method with its arguments, by that without them.
fn instance_token<'a>(
    alloc: Global,
    refs: &mut References<'a>,
    method: &'a MethodRef,
    generic: u32,
) -> Result<u32, NoMemory>
    requires known { AreKnown refs.old }
    requires generic_is { HasGenericToken refs.old method.now generic }
    requires writable { AreArgumentsWritable refs.old method.now.args }
    requires in_bounds { AreArgumentsInBounds method.now.sig.generic method.now.args }
    requires room { size refs.old + instance_weight method.now.args ≤ 2 ^ 26 }
    ensures { IfOk result (Leaves (λ r. IsMethodToken r method.now) refs.old refs.new (instance_weight method.now.args)) }
{
    match &method.args {
        None => Ok(generic),
        Some(args) => {
            let signature = arguments_signature(alloc, refs, args)?;
            instance_row(refs, method, generic, signature)
        }
    }
}

/// The token of the row of MethodSpec with these cells, which is added where it is lacking.
fn instance_row<'a>(
    refs: &mut References<'a>,
    _method: &'a MethodRef,
    generic: u32,
    signature: u32,
) -> Result<u32, NoMemory>
    requires known { AreKnown refs.old }
    requires generic_is { HasGenericToken refs.old _method.now generic }
    requires signature_is { HasArguments _method.now.sig.generic refs.old signature }
    requires room { size refs.old + 8 ≤ 2 ^ 26 }
    ensures { IfOk result (Leaves (IsInstanceOf generic signature) refs.old refs.new 8) }
{
    let row = refs.referred.instances.number(Cells {
        first: index_of_token(Coded::MethodDefOrRef, generic),
        second: signature,
        third: 0,
    })?;
    Ok(token_of(METHOD_SPEC, row))
}

/// Gives a method a token.
fn give_method<'a>(
    refs: &mut References<'a>,
    method: &'a MethodRef,
    token: u32,
) -> Result<u32, NoMemory>
    requires known { AreKnown refs.old }
    requires token_is { IsMethodToken refs.old method.now token }
    ensures { IfOk result (Leaves (HasMethod method.now) refs.old refs.new 0) }
{
    refs.known.methods.give(method, token)
}

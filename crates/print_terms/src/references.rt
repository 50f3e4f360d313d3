//! Signatures, and references to methods and fields (ECMA-335 II.15.3, II.15.4).
ghost use Rattle.std.specs.Prelude.{◌≡◌, OnOk, IfOk, fold, map, min, option_map, Some};
ghost use Rattle.type_terms.specs.declared.term.Owner.{out-Owner};
ghost use Rattle.assembly_tree.specs.WellFormedNames.{is_module};
ghost use Rattle.listing_model.specs.References.{convention, method_name, argument, arguments, with_sentinel, method_generics, method_ref, field_ref};
ghost use Rattle.listing_model.specs.Shown.{none, opt_below};
ghost use Rattle.listing_model.specs.Types.{type_of};
ghost use Rattle.print_leaves.specs.Page.{drawn};
ghost use Rattle.print_terms.specs.Owners.{is_owned, is_written, behind_owner, behind_path, member_drawn, count_drawn, reference_of};
ghost use Rattle.print_terms.specs.Rows.{under, between, behind, before_comma};

use crate::keys::ExternKeys;
use crate::types::{write_path, write_type, write_types};
use il_lexer::word;
use il_lists::NoMemory;
use print_leaves::Paper;
use type_terms::{FieldRef, MethodRef, MethodSig, Owner, Scope, SigType, TypeId, Types};

/// `instance`, `explicit` and `vararg`, as far as they hold.
pub fn write_convention(paper: &mut Paper, sig: &MethodSig) -> Result<(), NoMemory>
    ensures { OnOk result (paper.new ≡ drawn paper.old (convention sig.now none)) }
{
    if sig.has_this {
        paper.word(word::INSTANCE)?;
        if sig.explicit_this {
            paper.word(word::EXPLICIT)?;
        }
    }
    if sig.vararg {
        paper.word(word::VARARG)?;
    }
    Ok(())
}

/// The name of a method, where `.ctor` and `.cctor` may stand as words.
pub fn write_method_name(paper: &mut Paper, name: &str) -> Result<(), NoMemory>
    ensures { OnOk result (paper.new ≡ under paper.old (method_name name.now)) }
{
    if name == ".ctor" {
        paper.word(word::DOT_CTOR)?;
    } else if name == ".cctor" {
        paper.word(word::DOT_CCTOR)?;
    } else {
        paper.name(name)?;
    }
    Ok(())
}

/// A reference to a method.
pub fn write_method_ref(
    paper: &mut Paper,
    externs: &ExternKeys<'_>,
    r: &MethodRef,
) -> Result<(), NoMemory>
    ensures { OnOk result (paper.new ≡ under paper.old (method_ref externs.now r.now)) }
{
    write_convention(paper, &r.sig)?;
    write_type(paper, externs, &r.sig.ret)?;
    let owned = write_target_owner(paper, externs, &r.owner)?;
    write_member_name(paper, owned, r.name.as_str())?;
    write_generics(paper, externs, r.sig.generic, r.args.as_ref())?;
    write_arguments(paper, externs, &r.sig)?;
    Ok(())
}

/// A reference to a method of a type of this assembly by its declaration.
pub fn write_own_reference(
    paper: &mut Paper,
    externs: &ExternKeys<'_>,
    path: &[TypeId],
    name: &str,
    sig: &MethodSig,
) -> Result<(), NoMemory>
    ensures { OnOk result (paper.new ≡ under paper.old (method_ref externs.now (reference_of path.now name.now sig.now))) }
{
    write_convention(paper, sig)?;
    write_type(paper, externs, &sig.ret)?;
    let owned = write_owner_path(paper, path)?;
    write_member_name(paper, owned, name)?;
    write_generics(paper, externs, sig.generic, None)?;
    write_arguments(paper, externs, sig)?;
    Ok(())
}

/// A reference to a field.
pub fn write_field_ref(
    paper: &mut Paper,
    externs: &ExternKeys<'_>,
    r: &FieldRef,
) -> Result<(), NoMemory>
    ensures { OnOk result (paper.new ≡ under paper.old (field_ref externs.now r.now)) }
{
    write_type(paper, externs, &r.of)?;
    write_target_owner(paper, externs, &r.owner)?;
    paper.name(r.name.as_str())?;
    Ok(())
}

// The name of a method: behind an owner `.ctor` and `.cctor` stand as words.
fn write_member_name(paper: &mut Paper, owned: bool, name: &str) -> Result<(), NoMemory>
    ensures { OnOk result (paper.new ≡ member_drawn paper.old owned name.now) }
{
    if owned {
        write_method_name(paper, name)?;
    } else {
        paper.name(name)?;
    }
    Ok(())
}

// The owner and `::`, and whether there are any.
fn write_target_owner(
    paper: &mut Paper,
    externs: &ExternKeys<'_>,
    owner: &Owner,
) -> Result<bool, NoMemory>
    ensures drawn { OnOk result (paper.new ≡ behind_owner externs.now paper.old (out-Owner owner.now)) }
    ensures owned { IfOk result (λ owned. owned ≡ is_owned (out-Owner owner.now)) }
{
    match owner {
        Owner::Spec(of) => {
            write_type(paper, externs, of)?;
            paper.word(word::DOUBLE_COLON)?;
            Ok(true)
        }
        Owner::Name(name) => match name.scope {
            Scope::Here => write_owner_path(paper, name.path.as_slice()),
            Scope::Extern(number) => {
                externs.write_scope(paper, number)?;
                write_path(paper, name.path.as_slice())?;
                paper.word(word::DOUBLE_COLON)?;
                Ok(true)
            }
        },
    }
}

// The same for a type of this assembly: nothing for `<Module>`.
fn write_owner_path(paper: &mut Paper, path: &[TypeId]) -> Result<bool, NoMemory>
    ensures drawn { OnOk result (paper.new ≡ behind_path paper.old path.now) }
    ensures owned { IfOk result (λ owned. owned ≡ is_written path.now) }
{
    if !is_written(path) {
        return Ok(false);
    }
    write_path(paper, path)?;
    paper.word(word::DOUBLE_COLON)?;
    Ok(true)
}

// Whether a path of this assembly is written: it isn't that of the type that holds what is declared outside of any class.
fn is_written(path: &[TypeId]) -> bool
    ensures { result ≡ is_written path.now }
{
    match path {
        [] => false,
        [id] => !is_module(id),
        _ => true,
    }
}

// The generic arguments of a reference, or their number.
#[tactic(auto, using(crate::proofs::Owners::count_is, crate::proofs::Owners::generics_are))]
fn write_generics(
    paper: &mut Paper,
    externs: &ExternKeys<'_>,
    count: u32,
    args: Option<&Types>,
) -> Result<(), NoMemory>
    ensures { OnOk result (paper.new ≡ drawn paper.old (opt_below (method_generics externs.now count (option_map (λ t. t.now) args.entry)))) }
{
    match args {
        Some(args) => {
            paper.word(word::LESS)?;
            write_types(paper, externs, args.as_slice())?;
            paper.word(word::GREATER)?;
            Ok(())
        }
        None => {
            write_count(paper, count)?;
            Ok(())
        }
    }
}

// `<[n]>`, where a generic method is named without arguments.
fn write_count(paper: &mut Paper, count: u32) -> Result<(), NoMemory>
    ensures { OnOk result (paper.new ≡ count_drawn paper.old count) }
{
    if count > 0 {
        paper.word(word::LESS)?;
        paper.word(word::OPEN_BRACKET)?;
        paper.natural(u64::from(count))?;
        paper.word(word::CLOSE_BRACKET)?;
        paper.word(word::GREATER)?;
    }
    Ok(())
}

/// The arguments of a signature in parentheses, with `...` before those behind the sentinel.
pub fn write_arguments(
    paper: &mut Paper,
    externs: &ExternKeys<'_>,
    sig: &MethodSig,
) -> Result<(), NoMemory>
    ensures { OnOk result (paper.new ≡ drawn paper.old (arguments externs.now sig.now none)) }
{
    paper.word(word::OPEN_PAREN)?;
    write_params(paper, externs, sig)?;
    paper.word(word::CLOSE_PAREN)?;
    Ok(())
}

// The arguments with commas between them.
fn write_params(
    paper: &mut Paper,
    externs: &ExternKeys<'_>,
    sig: &MethodSig,
) -> Result<(), NoMemory>
    ensures { OnOk result (paper.new ≡ between paper.old (with_sentinel sig.now.sentinel (map (argument externs.now) sig.now.params))) }
{
    match sig.sentinel {
        None => {
            write_types(paper, externs, sig.params.as_slice())?;
            Ok(())
        }
        Some(place) => {
            write_with_sentinel(paper, externs, sig.params.as_slice(), place as usize)?;
            Ok(())
        }
    }
}

// The arguments before the sentinel, each with a comma behind it.
fn write_fixed(
    paper: &mut Paper,
    externs: &ExternKeys<'_>,
    types: &[SigType],
) -> Result<(), NoMemory>
    ensures { OnOk result (paper.new ≡ fold (λ q t. before_comma q (type_of externs.now t)) paper.old types.now) }
{
    for of in types {
        write_type(paper, externs, of)?;
        paper.word(word::COMMA)?;
    }
    Ok(())
}

// The arguments behind the sentinel, each behind a comma.
fn write_behind(
    paper: &mut Paper,
    externs: &ExternKeys<'_>,
    types: &[SigType],
) -> Result<(), NoMemory>
    ensures { OnOk result (paper.new ≡ fold (λ q t. behind q (type_of externs.now t)) paper.old types.now) }
{
    for of in types {
        paper.word(word::COMMA)?;
        write_type(paper, externs, of)?;
    }
    Ok(())
}

// All arguments, `...` before the one at this place.
fn write_with_sentinel(
    paper: &mut Paper,
    externs: &ExternKeys<'_>,
    params: &[SigType],
    place: usize,
) -> Result<(), NoMemory>
    ensures { OnOk result (paper.new ≡ between paper.old (with_sentinel (Some place) (map (argument externs.now) params.now))) }
{
    let (fixed, more) = params.split_at(within(place, params.len()));
    write_fixed(paper, externs, fixed)?;
    paper.word(word::ELLIPSIS)?;
    write_behind(paper, externs, more)?;
    Ok(())
}

// A place, or the count where it is at least that.
fn within(place: usize, count: usize) -> usize
    ensures { result ≡ min place count }
{
    if place < count { place } else { count }
}

/// Whether the class is `<Module>`.
fn is_module(id: &TypeId) -> bool
    ensures { result ≡ is_module id.now }
{
    id.space.is_empty() && id.name.as_str() == "<Module>"
}

//! Single references and names.
ghost use Rattle.std.specs.Prelude.{◌≡◌, IfOk, string_bytes};
ghost use Rattle.print_terms.specs.Lines.{reference_text, type_text};
ghost use Rattle.print_terms.specs.Owners.{reference_of};

use crate::keys::ExternKeys;
use crate::references::{write_method_ref, write_own_reference};
use crate::types::write_type_name;
use il_lists::NoMemory;
use print_leaves::{Paper, drawn_is_text};
use std::alloc::Global;
use type_terms::{MethodRef, MethodSig, TypeId, TypeName};

/// A reference to a method as a listing spells it, where these are the assemblies that are named.
///
/// # Errors
///
/// There was no memory.
pub fn reference_by(
    alloc: Global,
    externs: &ExternKeys<'_>,
    r: &MethodRef,
) -> Result<String, NoMemory>
    ensures { IfOk result (λ text. string_bytes text ≡ reference_text externs.now r.now) }
{
    drawn_is_text();
    let mut paper = Paper::new(alloc);
    write_method_ref(&mut paper, externs, r)?;
    Ok(paper.into_string())
}

/// A reference to a method of a type of this assembly by its declaration.
///
/// # Errors
///
/// There was no memory.
pub fn own_reference_by(
    alloc: Global,
    externs: &ExternKeys<'_>,
    path: &[TypeId],
    name: &str,
    sig: &MethodSig,
) -> Result<String, NoMemory>
    ensures { IfOk result (λ text. string_bytes text ≡ reference_text externs.now (reference_of path.now name.now sig.now)) }
{
    drawn_is_text();
    let mut paper = Paper::new(alloc);
    write_own_reference(&mut paper, externs, path, name, sig)?;
    Ok(paper.into_string())
}

/// A type's name as a listing spells it, where these are the assemblies that are named.
///
/// # Errors
///
/// There was no memory.
pub fn type_by(alloc: Global, externs: &ExternKeys<'_>, name: &TypeName) -> Result<String, NoMemory>
    ensures { IfOk result (λ text. string_bytes text ≡ type_text externs.now name.now) }
{
    drawn_is_text();
    let mut paper = Paper::new(alloc);
    write_type_name(&mut paper, externs, name)?;
    Ok(paper.into_string())
}

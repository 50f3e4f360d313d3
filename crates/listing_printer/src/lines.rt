//! References to methods, and names of types.
ghost use Rattle.std.specs.Prelude.{◌≡◌, IfOk};
ghost use Rattle.listing_model.specs.Canon.{reference_line, type_line};

use assembly_tree::Assembly;
use il_lists::{NoMemory, Text};
use print_terms::{ExternKeys, reference_by, type_by};
use std::alloc::Global;
use type_terms::{MethodRef, TypeName};

/// A reference to a method as the listing of the assembly spells it.
///
/// # Errors
///
/// There was no memory.
#[tactic(auto, unfolding(listing_model::specs::Canon::reference_line))]
pub fn print_reference(alloc: Global, a: &Assembly, r: &MethodRef) -> Result<Text, NoMemory>
    ensures { IfOk result (λ text. text ≡ reference_line a.now r.now) }
{
    let externs = ExternKeys::new(alloc, a.externs.as_slice())?;
    let text = reference_by(alloc, &externs, r)?;
    let text = Text::from_string(alloc, text)?;
    Ok(text)
}

/// A type's name as the listing of the assembly spells it.
///
/// # Errors
///
/// There was no memory.
#[tactic(auto, unfolding(listing_model::specs::Canon::type_line))]
pub fn print_type(alloc: Global, a: &Assembly, name: &TypeName) -> Result<Text, NoMemory>
    ensures { IfOk result (λ text. text ≡ type_line a.now name.now) }
{
    let externs = ExternKeys::new(alloc, a.externs.as_slice())?;
    let text = type_by(alloc, &externs, name)?;
    let text = Text::from_string(alloc, text)?;
    Ok(text)
}

//! Types, each with those that it nests (ECMA-335 II.10).
ghost use Rattle.std.specs.Prelude.{◌≡◌, ◌+◌, ◌-◌, ◌++◌, ◌∷◌, [], OnOk, IfOk, length, take, map};
ghost use Rattle.listing_model.specs.Classes.{class, classes_from, all_contents};
ghost use Rattle.print_terms.specs.Rows.{under, in_row};

use crate::heads::write_head;
use crate::members::{write_front, write_members};
use assembly_tree::TypeDef;
use il_lists::{Copies, Items, NoMemory};
use print_leaves::Paper;
use print_members::{close_braces, open_braces};
use print_terms::ExternKeys;
use std::alloc::Global;
use type_terms::TypeId;

/// Types that are nested in those of the path `outer`. `number` is that of the first data, and that behind the last is answered.
#[cycle(classes)]
pub fn write_classes(
    paper: &mut Paper,
    alloc: Global,
    externs: &ExternKeys<'_>,
    outer: &mut Items<TypeId>,
    types: &[TypeDef],
    number: u64,
) -> Result<u64, NoMemory>
    ensures drawn { OnOk result (paper.new ≡ in_row paper.old (classes_from 0 outer.old number (map (class externs.now) types.now))) }
    ensures behind { IfOk result (λ next. next ≡ number + length (all_contents (map (class externs.now) types.now))) }
    ensures outer { OnOk result (outer.new ≡ outer.old) }
{
    let mut next = number;
    for of in types {
        next = write_class(paper, alloc, externs, outer, of, next)?;
    }
    Ok(next)
}

// A type that is nested in those of the path `outer`.
#[cycle(classes)]
fn write_class(
    paper: &mut Paper,
    alloc: Global,
    externs: &ExternKeys<'_>,
    outer: &mut Items<TypeId>,
    of: &TypeDef,
    number: u64,
) -> Result<u64, NoMemory>
    ensures drawn { OnOk result (paper.new ≡ under paper.old ((class externs.now of.now).shown outer.old number)) }
    ensures behind { IfOk result (λ next. next ≡ number + length (class externs.now of.now).contents) }
    ensures outer { OnOk result (outer.new ≡ outer.old) }
{
    enter(alloc, outer, &of.id)?;
    write_head(paper, externs, of)?;
    open_braces(paper)?;
    let behind = write_front(paper, externs, of, number)?;
    write_members(paper, alloc, externs, outer.as_slice(), of)?;
    let next = write_classes(paper, alloc, externs, outer, of.nested.as_slice(), behind)?;
    close_braces(paper)?;
    leave(outer);
    Ok(next)
}

/// A path with one more type.
///
/// # Errors
///
/// There was no memory.
pub fn enter(alloc: Global, path: &mut Items<TypeId>, id: &TypeId) -> Result<(), NoMemory>
    ensures { OnOk result (path.new ≡ path.old ++ id.now ∷ []) }
{
    let id = id.copy(alloc)?;
    path.push(id)?;
    Ok(())
}

// A path without its last type.
fn leave(path: &mut Items<TypeId>)
    ensures { path.new ≡ take (length path.old - 1) path.old }
{
    let kept = path.len().saturating_sub(1);
    path.truncate(kept);
}

//! Methods (ECMA-335 II.15).
ghost use Rattle.std.specs.Prelude.{◌≡◌, OnOk, fold};
ghost use Rattle.listing_model.specs.Methods.{method};
ghost use Rattle.print_terms.specs.Rows.{under};

use crate::heads::write_head;
use crate::items::write_items;
use assembly_tree::Method;
use il_lists::NoMemory;
use print_leaves::Paper;
use print_members::{close_braces, open_braces};
use print_terms::ExternKeys;
use std::alloc::Global;

/// Methods, each with what stands in its braces.
///
/// # Errors
///
/// There was no memory.
pub fn write_methods(
    paper: &mut Paper,
    alloc: Global,
    externs: &ExternKeys<'_>,
    methods: &[Method],
) -> Result<(), NoMemory>
    ensures { OnOk result (paper.new ≡ fold (λ q m. under q (method externs.now m)) paper.old methods.now) }
{
    for method in methods {
        write_method(paper, alloc, externs, method)?;
    }
    Ok(())
}

/// A method.
///
/// # Errors
///
/// There was no memory.
pub fn write_method(
    paper: &mut Paper,
    alloc: Global,
    externs: &ExternKeys<'_>,
    m: &Method,
) -> Result<(), NoMemory>
    ensures { OnOk result (paper.new ≡ under paper.old (method externs.now m.now)) }
{
    write_head(paper, alloc, externs, m)?;
    open_braces(paper)?;
    write_items(paper, alloc, externs, m)?;
    close_braces(paper)?;
    Ok(())
}

//! The heads of methods.
ghost use Rattle.std.specs.Prelude.{◌≡◌, OnOk};
ghost use Rattle.listing_model.specs.Methods.{def_args, parameters};
ghost use Rattle.listing_model.specs.Shown.{opt_below};
ghost use Rattle.print_leaves.specs.Page.{drawn};
ghost use Rattle.print_methods.specs.Pieces.{method_head};

use crate::params::write_parameters;
use assembly_tree::Method;
use il_lexer::word;
use il_lists::NoMemory;
use print_leaves::Paper;
use print_members::{write_implementation_flags, write_method_flags, write_typars};
use print_terms::{ExternKeys, write_convention, write_method_name, write_type};
use std::alloc::Global;

/// The line of a method's head.
pub(crate) fn write_head(
    paper: &mut Paper,
    alloc: Global,
    externs: &ExternKeys<'_>,
    m: &Method,
) -> Result<(), NoMemory>
    ensures { OnOk result (paper.new ≡ drawn paper.old (method_head externs.now m.now)) }
{
    paper.line(word::DOT_METHOD)?;
    write_method_flags(paper, u32::from(m.flags))?;
    write_convention(paper, &m.sig)?;
    write_type(paper, externs, &m.sig.ret)?;
    write_method_name(paper, m.name.as_str())?;
    write_typars(paper, externs, m.generics.as_slice())?;
    paper.word(word::OPEN_PAREN)?;
    let rows = m.params.as_slice();
    write_parameters(paper, alloc, externs, rows, m.sig.params.as_slice())?;
    paper.word(word::CLOSE_PAREN)?;
    write_implementation_flags(paper, u32::from(m.impl_flags))?;
    Ok(())
}

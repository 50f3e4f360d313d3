//! Accessors of properties and events (ECMA-335 II.17, II.18, II.22.28).
ghost use Rattle.std.specs.Prelude.{◌≡◌, OnOk, fold, slice_get};
ghost use Rattle.print_members.specs.Rows.{accessor_word, accessor_drawn, accessor_step};

use assembly_tree::{Accessor, Method};
use il_lexer::word;
use il_lists::NoMemory;
use print_leaves::Paper;
use print_terms::{ExternKeys, write_own_reference};
use type_terms::TypeId;

/// A line for each accessor, in a class with this path and these methods.
pub(crate) fn write_accessors(
    paper: &mut Paper,
    externs: &ExternKeys<'_>,
    path: &[TypeId],
    methods: &[Method],
    accessors: &[Accessor],
) -> Result<(), NoMemory>
    ensures { OnOk result (paper.new ≡ fold (accessor_step externs.now path.now methods.now) paper.old accessors.now) }
{
    for accessor in accessors {
        write_accessor(paper, externs, path, methods, *accessor)?;
    }
    Ok(())
}

fn write_accessor(
    paper: &mut Paper,
    externs: &ExternKeys<'_>,
    path: &[TypeId],
    methods: &[Method],
    accessor: Accessor,
) -> Result<(), NoMemory>
    ensures { OnOk result (paper.new ≡ accessor_step externs.now path.now methods.now paper.old accessor) }
{
    let place = accessor.method as usize;
    if place < methods.len() {
        paper.line(accessor_word(accessor.kind))?;
        let method = &methods[place];
        write_own_reference(paper, externs, path, method.name.as_str(), &method.sig)?;
    }
    Ok(())
}

// The word for what an accessor does.
fn accessor_word(kind: u16) -> u16
    ensures { result ≡ accessor_word kind }
{
    match kind {
        1 => word::DOT_SET,
        2 => word::DOT_GET,
        8 => word::DOT_ADDON,
        0x10 => word::DOT_REMOVEON,
        0x20 => word::DOT_FIRE,
        _ => word::DOT_OTHER,
    }
}

//! The assemblies that an assembly names (ECMA-335 II.6.3, II.22.5).
ghost use Rattle.std.specs.Prelude.{◌≡◌, OnOk, slice_get, Some};
ghost use Rattle.listing_model.specs.Manifests.{extern_item, extern_lines, extern_items, hash};
ghost use Rattle.print_terms.specs.Rows.{under, in_row};
ghost use Rattle.print_manifests.specs.Pieces.{alias_drawn};

use crate::keys::{write_culture, write_flags, write_key, write_version};
use assembly_tree::ExternAssembly;
use il_lexer::word;
use il_lists::NoMemory;
use print_leaves::Paper;
use print_members::{close_braces, open_braces};
use print_terms::{ExternKeys, alias_of};
use std::alloc::Global;

/// The declarations of the assemblies that an assembly names.
///
/// # Errors
///
/// There was no memory.
pub fn write_externs(
    paper: &mut Paper,
    alloc: Global,
    keys: &ExternKeys<'_>,
    externs: &[ExternAssembly],
) -> Result<(), NoMemory>
    requires { keys.now ≡ externs.now }
    ensures { OnOk result (paper.new ≡ in_row paper.old (extern_lines externs.now 0 externs.now)) }
{
    for place in 0..externs.len() {
        write_extern(paper, alloc, keys, place, &externs[place])?;
    }
    Ok(())
}

fn write_extern(
    paper: &mut Paper,
    alloc: Global,
    keys: &ExternKeys<'_>,
    place: usize,
    of: &ExternAssembly,
) -> Result<(), NoMemory>
    requires { slice_get keys.now place ≡ Some of.now }
    ensures { OnOk result (paper.new ≡ under paper.old (extern_item keys.now place of.now)) }
{
    paper.line(word::DOT_ASSEMBLY)?;
    paper.word(word::EXTERN)?;
    write_flags(paper, of.flags)?;
    paper.name(of.name.as_str())?;
    write_alias(paper, alloc, keys.is_aliased(place), place)?;
    open_braces(paper)?;
    write_extern_items(paper, of)?;
    close_braces(paper)?;
    Ok(())
}

// `as #k`, where the assembly has such a key.
fn write_alias(
    paper: &mut Paper,
    alloc: Global,
    aliased: bool,
    place: usize,
) -> Result<(), NoMemory>
    ensures { OnOk result (paper.new ≡ alias_drawn paper.old aliased place) }
{
    if !aliased {
        return Ok(());
    }
    if place > 0xFFFF_FFFF {
        return Err(NoMemory);
    }
    let alias = alias_of(alloc, place as u32)?;
    paper.word(word::AS)?;
    paper.name(alias.as_str())?;
    Ok(())
}

// Key, culture, hash and version.
fn write_extern_items(paper: &mut Paper, of: &ExternAssembly) -> Result<(), NoMemory>
    ensures { OnOk result (paper.new ≡ in_row paper.old (extern_items of.now)) }
{
    write_key(paper, of.flags, of.key.as_slice())?;
    write_culture(paper, of.culture.as_str())?;
    write_hash(paper, of.hash.as_slice())?;
    write_version(paper, &of.version)?;
    Ok(())
}

// `.hash = (..)`, where it isn't empty.
fn write_hash(paper: &mut Paper, bytes: &[u8]) -> Result<(), NoMemory>
    ensures { OnOk result (paper.new ≡ in_row paper.old (hash bytes.now)) }
{
    if !bytes.is_empty() {
        paper.line(word::DOT_HASH)?;
        paper.equals_bytes(bytes)?;
    }
    Ok(())
}

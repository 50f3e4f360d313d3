//! The assembly, its module, and the numbers of the image's headers.
ghost use Rattle.std.specs.Prelude.{◌≡◌, [], OnOk};
ghost use Rattle.listing_model.specs.Manifests.{assembly_item, assembly_items, header_lines, manifest_lines};
ghost use Rattle.print_terms.specs.Rows.{under, in_row};

use crate::keys::{write_culture, write_flags, write_key, write_version};
use assembly_tree::Manifest;
use il_lexer::word;
use il_lists::NoMemory;
use print_leaves::Paper;
use print_members::{close_braces, open_braces, write_attributes};
use print_terms::ExternKeys;

/// The assembly, its module with the module's attributes, and the numbers of the headers.
///
/// # Errors
///
/// There was no memory.
pub fn write_manifest(
    paper: &mut Paper,
    externs: &ExternKeys<'_>,
    m: &Manifest,
) -> Result<(), NoMemory>
    ensures { OnOk result (paper.new ≡ in_row paper.old (manifest_lines externs.now m.now)) }
{
    write_assembly(paper, externs, m)?;
    paper.line(word::DOT_MODULE)?;
    paper.name(m.module.as_str())?;
    write_attributes(paper, externs, m.module_attributes.as_slice())?;
    write_headers(paper, m)?;
    Ok(())
}

fn write_assembly(paper: &mut Paper, externs: &ExternKeys<'_>, m: &Manifest) -> Result<(), NoMemory>
    ensures { OnOk result (paper.new ≡ under paper.old (assembly_item externs.now m.now)) }
{
    paper.line(word::DOT_ASSEMBLY)?;
    write_flags(paper, m.flags)?;
    paper.name(m.name.as_str())?;
    open_braces(paper)?;
    write_assembly_items(paper, externs, m)?;
    close_braces(paper)?;
    Ok(())
}

// Attributes, the hash algorithm, key, culture and version.
fn write_assembly_items(
    paper: &mut Paper,
    externs: &ExternKeys<'_>,
    m: &Manifest,
) -> Result<(), NoMemory>
    ensures { OnOk result (paper.new ≡ in_row paper.old (assembly_items externs.now m.now)) }
{
    write_attributes(paper, externs, m.attributes.as_slice())?;
    paper.line(word::DOT_HASH)?;
    paper.word(word::ALGORITHM)?;
    paper.hexadecimal(8, u64::from(m.hash))?;
    write_key(paper, m.flags, m.key.as_slice())?;
    write_culture(paper, m.culture.as_str())?;
    write_version(paper, &m.version)?;
    Ok(())
}

// The numbers of the image's headers.
fn write_headers(paper: &mut Paper, m: &Manifest) -> Result<(), NoMemory>
    ensures { OnOk result (paper.new ≡ in_row paper.old (header_lines [] m.now)) }
{
    paper.line(word::DOT_IMAGEBASE)?;
    paper.hexadecimal(8, u64::from(m.image_base))?;
    paper.line(word::DOT_FILE)?;
    paper.word(word::ALIGNMENT)?;
    paper.hexadecimal(8, u64::from(m.file_alignment))?;
    paper.line(word::DOT_STACKRESERVE)?;
    paper.hexadecimal(8, u64::from(m.stack_reserve))?;
    paper.line(word::DOT_SUBSYSTEM)?;
    paper.hexadecimal(4, u64::from(m.subsystem))?;
    paper.line(word::DOT_CORFLAGS)?;
    paper.hexadecimal(8, u64::from(m.cor_flags))?;
    Ok(())
}

ghost use Rattle.std.specs.Prelude.{◌≡◌, ◌^◌, IfOk};
ghost use Rattle.image_model.specs.Reading.{IsManifest, ImageBaseIs, FileAlignmentIs, without};
ghost use Rattle.image_source.specs.Names.{names_of};
ghost use Rattle.image_source.specs.Ready.{IsReady};

use crate::versions::version;
use assembly_tree::Manifest;
use il_base::NoMemory;
use image_attributes::attributes;
use image_source::Source;
use row_parts::{blob_of, four, pair, text_of};
use std::alloc::Global;

/// What the assembly and its module say of themselves (II.22.2, II.22.30), with the header's numbers where these may stand in an
/// assembly.
#[tactic(auto, unfolding(metadata_tables::specs::Schema::schema))]
pub(crate) fn manifest(alloc: Global, source: &Source<'_, '_>) -> Result<Manifest, NoMemory>
    requires { IsReady source.now.image.now source.now.kept.now source.now.sizes.now }
    ensures { IfOk result (IsManifest source.now.image.now (names_of source.now.kept.now)) }
{
    let image = source.image;
    let numbers = image.pe().numbers();
    let version = version(image, 0x20, 1, 1);
    let flags = image.tables().cell(0x20, 1, 5);
    let hash = image.tables().cell(0x20, 1, 0);
    let read = pair(
        four(
            text_of(alloc, image, 0x20, 1, 7),
            blob_of(alloc, image, 0x20, 1, 6),
            text_of(alloc, image, 0x20, 1, 8),
            text_of(alloc, image, 0x00, 1, 1),
        ),
        pair(attributes(alloc, source, 46), attributes(alloc, source, 39)),
    )?;
    let ((name, key, culture, module), (attributes, module_attributes)) = read;
    Ok(Manifest {
        name,
        version,
        flags,
        key,
        culture,
        hash,
        module,
        image_base: image_base(numbers.image_base),
        file_alignment: file_alignment(numbers.file_alignment),
        stack_reserve: numbers.stack_reserve,
        subsystem: numbers.subsystem,
        cor_flags: unsigned(numbers.cor_flags),
        attributes,
        module_attributes,
    })
}

/// The flags of the CLI header without the flag of a signed image (II.25.3.3.1).
fn unsigned(flags: u32) -> u32
    ensures { result ≡ without flags 8 }
{
    flags - (flags & 8)
}

/// The header's image base where it may stand in an assembly, else the default (II.25.2.3.2).
fn image_base(base: u32) -> u32
    ensures { ImageBaseIs base result }
{
    if base % 0x1_0000 == 0 && 0x1_0000 <= base && base <= 0xF000_0000 {
        base
    } else {
        0x40_0000
    }
}

/// The header's file alignment where it may stand in an assembly, else the default (II.25.2.3.2).
fn file_alignment(alignment: u32) -> u32
    ensures { FileAlignmentIs alignment result }
{
    match alignment {
        0x200 | 0x400 | 0x800 | 0x1000 => alignment,
        _ => 0x200,
    }
}

ghost use Rattle.std.specs.Prelude.{◌≡◌, ◌+◌, ◌*◌, ◌^◌, ◌<◌, ◌≤◌, ℕ, length, None, IfOk};
ghost use Rattle.pe_layout.specs.FileMap.{StandsAt};
ghost use Rattle.pe_layout.specs.CliHeader.{metadata_rva_of, metadata_size_of, metadata_of, entry_token_of};
ghost use Rattle.pe_layout.specs.Faults.{pe_fault};
ghost use Rattle.pe_layout.specs.Numbers.{numbers_of, IsImageBase, IsFileAlignment};
ghost use Rattle.pe_layout.specs.Frame.{HasFrame, IsFilled};
ghost use Rattle.pe_layout.specs.Layout.{image_of, IsRanged};

use crate::Parts;
use crate::contents::{push_padded, push_relocations, push_text_back, push_text_front};
use crate::field::push_zeros;
use crate::frame::push_headers;
use crate::layout::{CODE_RVA, Layout, RELOC_SIZE};
use il_lists::{Bytes, NoMemory};
use std::alloc::Global;

/// The RVA at which method bodies begin in every image that `write` makes.
pub fn code_rva() -> u32
    ensures { result ≡ 0x2050 }
{
    CODE_RVA
}

// The bytes of the headers that are filled.
const HEADERS_SIZE: u32 = 456;

// The image, piece by piece.
fn image_of(alloc: Global, parts: &Parts) -> Result<Bytes, NoMemory>
    requires base { IsImageBase parts.now.numbers.image_base }
    requires alignment { IsFileAlignment parts.now.numbers.file_alignment }
    requires size { length parts.now.code + length parts.now.metadata < 2 ^ 26 }
    ensures { IfOk result (λ image. (image ≡ image_of parts.now) × IsRanged parts.now) }
{
    let layout = Layout::of(parts);
    let numbers = &parts.numbers;
    let alignment = numbers.file_alignment;
    let len = alignment + layout.text_raw + layout.reloc_raw;
    let mut out = Bytes::with_capacity(alloc, len as usize)?;
    push_headers(&mut out, &layout, numbers, parts.kind)?;
    push_zeros(&mut out, alignment - HEADERS_SIZE)?;
    push_text_front(
        &mut out,
        &layout,
        parts.metadata.len() as u32,
        numbers.cor_flags,
        parts.entry,
    )?;
    push_padded(&mut out, parts.code.as_slice())?;
    push_padded(&mut out, parts.metadata.as_slice())?;
    push_text_back(&mut out, &layout, numbers, parts.kind)?;
    push_zeros(&mut out, layout.text_raw - layout.text_size)?;
    push_relocations(&mut out, &layout)?;
    push_zeros(&mut out, layout.reloc_raw - RELOC_SIZE)?;
    Ok(out)
}

/// Lays code and metadata out in an image (ECMA-335 II.25).
///
/// Bodies begin at `code_rva`; the metadata stands where the CLI header says. The image imports the
/// runtime's entry from `mscoree.dll`, and its entry point is the stub that jumps there.
pub fn write(alloc: Global, parts: &Parts) -> Result<Bytes, NoMemory>
    requires base { IsImageBase parts.now.numbers.image_base }
    requires alignment { IsFileAlignment parts.now.numbers.file_alignment }
    requires size { length parts.now.code + length parts.now.metadata < 2 ^ 26 }

    ensures opens { IfOk result (λ image. pe_fault image ≡ None) }
    ensures frame { IfOk result (λ image. HasFrame image parts.now.kind) }
    ensures filled { IfOk result IsFilled }
    ensures numbers { IfOk result (λ image. numbers_of image ≡ parts.now.numbers) }
    ensures entry { IfOk result (λ image. entry_token_of image ≡ parts.now.entry) }
    ensures code { IfOk result (λ image. StandsAt image 0x2050 parts.now.code) }
    ensures metadata { IfOk result (λ image. StandsAt image (metadata_rva_of image) parts.now.metadata) }
    ensures metadata_size { IfOk result (λ image. metadata_size_of image ≡ length parts.now.metadata) }
    ensures metadata_bytes { IfOk result (λ image. metadata_of image ≡ parts.now.metadata) }

    // Beside code and metadata there are at most 166 bytes in `.text` and 12 in `.reloc`; headers and
    // sections are filled up to the file alignment.
    ensures len { IfOk result (λ image. length image ≤ length parts.now.code + length parts.now.metadata + 3 * parts.now.numbers.file_alignment + 178) }
{
    image_of(alloc, parts)
}

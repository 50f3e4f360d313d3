//! An image from all that it is made of.
ghost use Rattle.std.specs.Prelude.{◌≡◌, ℕ, ◌+◌, ◌*◌, ◌^◌, ◌<◌, ◌≤◌, length, slice_index, if◌then◌else◌, IfOk};
ghost use Rattle.image_layout.specs.Indexes.{HasIndexesIn};
ghost use Rattle.image_layout.specs.LaidOut.{HoldsParts, IsLaidOut, numbers_in};
ghost use Rattle.image_layout.specs.Sizes.{heap_bytes, heap_flags, is_wide, stream_bytes};
ghost use Rattle.metadata_tables.specs.Encoding.{Holds};
ghost use Rattle.pe_layout.specs.Numbers.{IsFileAlignment, IsImageBase};

use assembly_tree::Manifest;
use il_base::{Bytes, NoMemory};
use image_model::{Streams, put_together};
use image_tokens::references::References;
use metadata_tables::{Rows, encode, indexes_fit};
use pe_layout::{Kind, ManifestNumbers, Parts};
use std::alloc::Global;

/// The image of these heaps, rows and bodies (ECMA-335 II.24.2, II.25). `code` begins at the RVA 0x2050; `entry` is the token of the
/// entry point, or 0; `id` is the identifier of the module.
pub fn lay_out(
    alloc: Global,
    refs: &References<'_>,
    rows: &Rows,
    code: Bytes,
    entry: u32,
    id: &[u8; 16],
    manifest: &Manifest,
    kind: Kind,
) -> Result<Bytes, NoMemory>
    requires base { IsImageBase manifest.now.image_base }
    requires alignment { IsFileAlignment manifest.now.file_alignment }
    requires indexes { HasIndexesIn refs.now rows.now }
    requires size { length code + heap_bytes refs.now + stream_bytes rows.now + 139 < 2 ^ 26 }
    ensures laid_out { IfOk result (IsLaidOut manifest.now refs.now rows.now code entry id.now kind) }

    // The root and the identifier have at most 139 bytes, the frame at most 178 and what fills up three parts of the file.
    ensures len { IfOk result (λ image. length image ≤ length code + heap_bytes refs.now + stream_bytes rows.now + 3 * manifest.now.file_alignment + 317) }
{
    let metadata = make_metadata(alloc, refs, rows, id)?;
    let parts = Parts {
        code,
        metadata,
        entry,
        numbers: numbers_in(manifest),
        kind,
    };
    pe_layout::write(alloc, &parts)
}

/// The numbers of the headers.
fn numbers_in(manifest: &Manifest) -> ManifestNumbers
    ensures { result ≡ numbers_in manifest.now }
{
    ManifestNumbers {
        image_base: manifest.image_base,
        file_alignment: manifest.file_alignment,
        stack_reserve: manifest.stack_reserve,
        subsystem: manifest.subsystem,
        cor_flags: manifest.cor_flags,
    }
}

/// The metadata: its root and the streams (II.24.2.1, II.24.2.2).
fn make_metadata(
    alloc: Global,
    refs: &References<'_>,
    rows: &Rows,
    id: &[u8],
) -> Result<Bytes, NoMemory>
    requires id { length id.now ≡ 16 }
    requires indexes { HasIndexesIn refs.now rows.now }
    requires size { heap_bytes refs.now + stream_bytes rows.now + 16 < 2 ^ 26 }
    ensures holds { IfOk result (HoldsParts refs.now rows.now id.now) }
    ensures len { IfOk result (λ metadata. length metadata ≤ heap_bytes refs.now + stream_bytes rows.now + 139) }
{
    let tables = encode_rows(alloc, refs, rows)?;
    let stream = tables.as_slice();
    are_bytes(stream);
    let streams = Streams {
        tables: stream,
        strings: refs.heaps.strings.bytes(),
        user: refs.heaps.user.bytes(),
        guids: id,
        blobs: refs.heaps.blobs.bytes(),
    };
    put_together(alloc, &streams)
}

/// Bytes are below 2^8. It does nothing when it is called.
fn are_bytes(_bytes: &[u8])
    ensures { (k : ℕ) → slice_index _bytes.now k < 2 ^ 8 }
{}

/// The stream of tables.
fn encode_rows(alloc: Global, refs: &References<'_>, rows: &Rows) -> Result<Bytes, NoMemory>
    requires indexes { HasIndexesIn refs.now rows.now }
    requires small { heap_bytes refs.now < 2 ^ 26 }
    ensures { IfOk result (Holds rows.now (heap_flags refs.now)) }
{
    indexes_fit();
    encode(alloc, rows, heap_flags(refs))
}

/// The byte of heap sizes: 1 where indexes of `#Strings` have 4 bytes, 4 where those of `#Blob` do (II.24.2.6). `#GUID` has one
/// identifier.
fn heap_flags(refs: &References<'_>) -> u8
    requires { heap_bytes refs.now < 2 ^ 26 }
    ensures { result ≡ heap_flags refs.now }
{
    let strings = is_wide(refs.heaps.strings.bytes());
    let blobs = is_wide(refs.heaps.blobs.bytes());
    flag_of(strings, 1) + flag_of(blobs, 4)
}

/// A bit where something is so.
fn flag_of(is: bool, bit: u8) -> u8
    ensures value { result ≡ if is then bit else 0 }
    ensures small { result ≤ bit }
{
    if is { bit } else { 0 }
}

/// Whether the stream of a heap, which is filled up to a multiple of 4, has 2^16 bytes or more.
fn is_wide(heap: &[u8]) -> bool
    requires { length heap.now < 2 ^ 26 }
    ensures { result ≡ is_wide heap.now }
{
    heap.len() + 3 >= 0x1_0000
}

ghost use Rattle.std.specs.Prelude.{◌≡◌, ◌≤◌, ◌<◌, ◌^◌, ◌+◌, ◌==◌, length, take, drop};
ghost use Rattle.std.specs.List.{position_or_len};
ghost use Rattle.pe_layout.specs.Fields.{u32_at};
ghost use Rattle.image_model.specs.Root.{name_at, behind_header, flags_place};

use crate::number::u32_at;

/// How many bytes stand before the first zero byte, or all where there is none.
fn name_len(bytes: &[u8]) -> usize
    ensures { result ≡ position_or_len (λ byte. byte == 0) bytes.now }
{
    for (k, byte) in bytes.iter().enumerate() {
        if *byte == 0 {
            return k;
        }
    }
    bytes.len()
}

/// The name that begins at a place: up to the first zero byte, or the end.
fn name_at(metadata: &[u8], place: usize) -> &[u8]
    requires { place ≤ length metadata.now }
    ensures { result.now ≡ name_at metadata.now place }
{
    let bytes = &metadata[place..];
    &bytes[..name_len(bytes)]
}

/// The name in the stream header at a place.
pub(crate) fn name_of(metadata: &[u8], place: usize) -> &[u8]
    requires { place + 8 ≤ length metadata.now }
    ensures { result.now ≡ name_at metadata.now (place + 8) }
{
    name_at(metadata, place + 8)
}

#[tactic(auto, unfolding(pe_layout::specs::Fields::round_up))]
/// The place behind the stream header at a place: its name and the zero behind it are filled up to a multiple of 4.
pub(crate) fn behind_header(metadata: &[u8], place: usize) -> usize
    requires { place + 8 ≤ length metadata.now }
    ensures { result ≡ behind_header metadata.now place }
{
    place + 8 + (name_of(metadata, place).len() + 4) / 4 * 4
}

#[tactic(auto, unfolding(pe_layout::specs::Fields::round_up))]
/// The place of the flags behind the version text.
pub(crate) fn flags_place(metadata: &[u8]) -> usize
    requires { 16 ≤ length metadata.now }
    ensures place { result ≡ flags_place metadata.now }
    ensures few { result < 2 ^ 33 }
{
    16 + (u32_at(metadata, 12) as usize + 3) / 4 * 4
}

/// The bytes of the stream that the header at a place names.
pub(crate) fn stream_at(metadata: &[u8], place: usize) -> &[u8]
    requires header { place + 8 ≤ length metadata.now }
    requires within { u32_at metadata.now place + u32_at metadata.now (place + 4) ≤ length metadata.now }
    ensures { result.now ≡ take (u32_at metadata.now (place + 4)) (drop (u32_at metadata.now place) metadata.now) }
{
    let offset = u32_at(metadata, place) as usize;
    let size = u32_at(metadata, place + 4) as usize;
    &metadata[offset..offset + size]
}

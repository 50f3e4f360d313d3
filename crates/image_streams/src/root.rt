ghost use Rattle.std.specs.Prelude.{◌≡◌, ◌↔◌, ◌≤◌, ◌+◌, IsTrue, length};
ghost use Rattle.pe_layout.specs.Fields.{round_up};
ghost use Rattle.image_model.specs.Root.{name_at, behind_header, flags_place};
ghost use Rattle.image_model.specs.Streams.{stream_of, streams_named};
ghost use Rattle.image_streams.specs.Walks.{LieInside};

use crate::number::{u16_at, u32_at};
use crate::streams::{behind_header, flags_place, name_of, stream_at};

/// Whether the headers of the metadata root, and the streams that they name, lie in the metadata (II.24.2.1, II.24.2.2). The
/// walk stops at the first that doesn't.
pub(crate) fn lie_inside(metadata: &[u8]) -> bool
    ensures inside { IsTrue result ↔ LieInside metadata.now }
    ensures long { IsTrue result → 20 ≤ length metadata.now }
{
    if metadata.len() < 20 {
        return false;
    }
    let flags = flags_place(metadata);
    if metadata.len() < flags + 4 {
        return false;
    }
    let mut place = flags + 4;
    let mut left = u16_at(metadata, flags + 2);
    while 0 < left {
        if metadata.len() < place + 8 {
            return false;
        }
        let behind = behind_header(metadata, place);
        let end = u32_at(metadata, place) as usize + u32_at(metadata, place + 4) as usize;
        if metadata.len() < behind || metadata.len() < end {
            return false;
        }
        place = behind;
        left -= 1;
    }
    true
}

/// How many streams of the metadata have a name, and the bytes of the first of them; none where there is none.
pub(crate) fn streams_with<'a>(metadata: &'a [u8], name: &[u8]) -> (u32, &'a [u8])
    requires { LieInside metadata.now }
    ensures count { result.0 ≡ streams_named metadata.now name.now }
    ensures bytes { result.1.now ≡ stream_of metadata.now name.now }
{
    let flags = flags_place(metadata);
    let mut place = flags + 4;
    let mut left = u16_at(metadata, flags + 2);
    let mut count = 0;
    let mut first: &[u8] = &[];
    while 0 < left {
        if name_of(metadata, place) == name {
            if count == 0 {
                first = stream_at(metadata, place);
            }
            count += 1;
        }
        place = behind_header(metadata, place);
        left -= 1;
    }
    (count, first)
}

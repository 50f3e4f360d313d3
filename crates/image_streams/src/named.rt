ghost use Rattle.std.specs.Prelude.{◌≡◌, IfSome, IfNone};
ghost use Rattle.pe_layout.specs.CliHeader.{metadata_of};
ghost use Rattle.image_model.specs.Streams.{HasRoot, tables_of, strings_of, user_of, guids_of, blobs_of, stream_of};
ghost use Rattle.image_streams.specs.Walks.{LieInside, StandOnce, AreStreams};

use crate::cli::{metadata, metadata_size};
use crate::number::u32_at;
use crate::root::{lie_inside, streams_with};
use pe_layout::PeView;

/// The signature with which the metadata root begins.
const SIGNATURE: u32 = 0x424A_5342;

/// The bytes of the streams of an image.
#[derive(Clone, Copy)]
pub(crate) struct Streams<'a> {
    pub(crate) tables: &'a [u8],
    pub(crate) strings: &'a [u8],
    pub(crate) user: &'a [u8],
    pub(crate) guids: &'a [u8],
    pub(crate) blobs: &'a [u8],
}

/// The streams of an image; None exactly where its metadata root isn't as it should be (II.24.2.1, II.24.2.2).
pub(crate) fn streams_of<'a>(pe: &PeView<'a>) -> Option<Streams<'a>>
    ensures root { IfSome result (λ _. HasRoot pe.now) }
    ensures streams { IfSome result (λ it. AreStreams (metadata_of pe.now) it.tables.now it.strings.now it.user.now it.guids.now it.blobs.now) }
    ensures none { IfNone result (HasRoot pe.now → ⊥) }
{
    let metadata = metadata(pe);
    if metadata.len() != metadata_size(pe) as usize {
        return None;
    }
    if !lie_inside(metadata) {
        return None;
    }
    if u32_at(metadata, 0) != SIGNATURE {
        return None;
    }
    streams_in(metadata)
}

/// The streams that the headers of a metadata root name; None exactly where one of them stands too often.
fn streams_in(metadata: &[u8]) -> Option<Streams<'_>>
    requires { LieInside metadata.now }
    ensures once { IfSome result (λ _. StandOnce metadata.now) }
    ensures streams { IfSome result (λ it. AreStreams metadata.now it.tables.now it.strings.now it.user.now it.guids.now it.blobs.now) }
    ensures none { IfNone result (StandOnce metadata.now → ⊥) }
{
    let (count, tables) = streams_with(metadata, b"#~");
    let (others, _) = streams_with(metadata, b"#-");
    let (strings_count, strings) = streams_with(metadata, b"#Strings");
    let (user_count, user) = streams_with(metadata, b"#US");
    let (guids_count, guids) = streams_with(metadata, b"#GUID");
    let (blobs_count, blobs) = streams_with(metadata, b"#Blob");
    let once = strings_count <= 1 && user_count <= 1 && guids_count <= 1 && blobs_count <= 1;
    if count != 1 || others != 0 || !once {
        return None;
    }
    Some(Streams {
        tables,
        strings,
        user,
        guids,
        blobs,
    })
}

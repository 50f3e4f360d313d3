//! The metadata of an image that is written: a root and its streams (ECMA-335 II.24.2.1, II.24.2.2).
ghost use Rattle.std.specs.Prelude.{◌≡◌, ℕ, ◌+◌, ◌-◌, ◌<◌, ◌≤◌, ◌^◌, ◌++◌, length, replicate, IfOk, OnOk};
ghost use Rattle.pe_layout.specs.Fields.{round_up};
ghost use Rattle.image_model.specs.Root.{filled};
ghost use Rattle.image_model.specs.Written.{header_bytes, root_of, total_of, HoldsStreams, HasWrittenRoot};

use byteorder::{ByteOrder, LittleEndian};
use il_base::{Bytes, NoMemory};
use std::alloc::Global;

/// The bytes of the five streams.
#[derive(Clone, Copy)]
pub struct Streams<'a> {
    /// `#~`
    pub tables: &'a [u8],
    /// `#Strings`
    pub strings: &'a [u8],
    /// `#US`
    pub user: &'a [u8],
    /// `#GUID`
    pub guids: &'a [u8],
    /// `#Blob`
    pub blobs: &'a [u8],
}

/// Puts streams together behind a root that names them. Each stream begins at a multiple of 4 and is
/// filled with zeros to a multiple of 4; the root's header fields have the values that are written.
#[tactic(auto, unfolding(crate::specs::Written::metadata_of))]
pub fn put_together(alloc: Global, streams: &Streams<'_>) -> Result<Bytes, NoMemory>
    requires { total_of streams.now < 2 ^ 26 }
    ensures holds { IfOk result (HoldsStreams streams.now) }
    ensures written { IfOk result HasWrittenRoot }
    ensures len { IfOk result (λ metadata. length metadata ≤ total_of streams.now + 123) }
{
    let mut out = Bytes::with_capacity(alloc, ROOT_SIZE as usize + capacity(streams))?;
    push_root(&mut out, streams)?;
    push_filled(&mut out, streams.tables)?;
    push_filled(&mut out, streams.strings)?;
    push_filled(&mut out, streams.user)?;
    push_filled(&mut out, streams.guids)?;
    push_filled(&mut out, streams.blobs)?;
    Ok(out)
}

// How many bytes the root has.
const ROOT_SIZE: u32 = 108;

// Room for the streams.
fn capacity(streams: &Streams<'_>) -> usize
    requires { total_of streams.now < 2 ^ 26 }
    ensures { result < 2 ^ 32 }
{
    streams.tables.len()
        + streams.strings.len()
        + streams.user.len()
        + streams.guids.len()
        + streams.blobs.len()
        + 15
}

// The signature, the versions, the version text, the flags and the number of streams.
const ROOT_FRONT: &[u8] = b"BSJB\x01\0\x01\0\0\0\0\0\x0C\0\0\0v4.0.30319\0\0\0\0\x05\0";

// The root, with the headers of the five streams.
fn push_root(out: &mut Bytes, streams: &Streams<'_>) -> Result<(), NoMemory>
    requires { total_of streams.now < 2 ^ 26 }
    ensures { OnOk result (out.new ≡ out.old ++ root_of (length (filled streams.now.tables.now)) (length (filled streams.now.strings.now)) (length (filled streams.now.user.now)) (length (filled streams.now.guids.now)) (length (filled streams.now.blobs.now))) }
{
    let tables = filled_size(streams.tables);
    let strings = filled_size(streams.strings);
    let user = filled_size(streams.user);
    let guids = filled_size(streams.guids);
    let blobs = filled_size(streams.blobs);
    out.extend(ROOT_FRONT)?;
    push_header(out, ROOT_SIZE, tables, b"#~\0\0")?;
    push_header(out, ROOT_SIZE + tables, strings, b"#Strings\0\0\0\0")?;
    push_header(out, ROOT_SIZE + tables + strings, user, b"#US\0")?;
    push_header(
        out,
        ROOT_SIZE + tables + strings + user,
        guids,
        b"#GUID\0\0\0",
    )?;
    push_header(
        out,
        ROOT_SIZE + tables + strings + user + guids,
        blobs,
        b"#Blob\0\0\0",
    )?;
    Ok(())
}

// A stream header; the name is filled up.
fn push_header(out: &mut Bytes, offset: u32, size: u32, name: &[u8]) -> Result<(), NoMemory>
    ensures { OnOk result (out.new ≡ out.old ++ header_bytes offset size name.now) }
{
    let mut numbers = [0; 8];
    LittleEndian::write_u32(&mut numbers, offset);
    LittleEndian::write_u32(&mut numbers[4..], size);
    out.extend(&numbers)?;
    out.extend(name)
}

// How many bytes a stream has when it is filled up.
#[tactic(auto, unfolding(crate::specs::Root::filled))]
fn filled_size(stream: &[u8]) -> u32
    requires { length stream.now < 2 ^ 26 }
    ensures size { result ≡ length (filled stream.now) }
    ensures small { result ≤ length stream.now + 3 }
{
    (stream.len() as u32 + 3) / 4 * 4
}

// A stream, filled up.
#[tactic(auto, unfolding(crate::specs::Root::filled))]
fn push_filled(out: &mut Bytes, stream: &[u8]) -> Result<(), NoMemory>
    requires { length stream.now < 2 ^ 26 }
    ensures { OnOk result (out.new ≡ out.old ++ filled stream.now) }
{
    let size = filled_size(stream) as usize;
    out.extend(stream)?;
    out.extend(&ZEROS[..size - stream.len()])
}

const ZEROS: [u8; 3] = [0; 3];

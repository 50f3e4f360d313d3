//! The heaps, as contents are added to them, and as they are read (ECMA-335 II.24.2.3 to II.24.2.5).

ghost use Rattle.std.specs.Prelude.{◌+◌, ◌<◌, length, IsTrue};

use crate::fault::Fault;
use crate::files::push_line;
use crate::parts::four;
use crate::values::{bytes_of, number32, push_hex, two};
use heaps::{BlobHeap, GuidHeap, StringHeap, UserHeap, blob_at, guid_at, string_at, user_at};
use il_lists::NoMemory;
use std::alloc::Global;
use std::str;

/// One heap of each kind.
#[derive(Drop)]
struct Heaps {
    blobs: BlobHeap,
    users: UserHeap,
    texts: StringHeap,
    ids: GuidHeap,
}

/// Whether so few bytes are in a heap that a content can be added.
fn has_room(heap: &[u8], content: &[u8]) -> bool
    ensures { IsTrue result → length heap.now + length content.now < 2000000 }
{
    heap.len() < 1_000_000 && content.len() < 1_000_000
}

/// Adds an index and what stands from it on.
fn push_added(out: &mut String, heap: &[u8], index: u32) -> Result<(), Fault> {
    write!(out, "{index}, ")?;
    push_hex(out, heap.get(index as usize..).unwrap_or(&[]))?;
    Ok(())
}

fn push_found(out: &mut String, found: Option<&[u8]>) -> Result<(), Fault> {
    match found {
        Some([]) => out.push_str("empty")?,
        Some(bytes) => push_hex(out, bytes)?,
        None => out.push_str("none")?,
    }
    Ok(())
}

/// What stands at an index of a heap with these bytes: `blob_at INDEX BYTES`, and so for the other heaps.
fn push_read(alloc: Global, out: &mut String, heap: &str, rest: &str) -> Result<(), Fault> {
    let (index, bytes) = match rest.split_once(' ') {
        Some(both) => both,
        None => (rest, ""),
    };
    let index = number32(index)?;
    let bytes = bytes_of(alloc, bytes)?;
    match heap {
        "blob_at" => push_found(out, blob_at(bytes.as_slice(), index)),
        "user_at" => push_found(out, user_at(bytes.as_slice(), index)),
        "id_at" => push_found(out, guid_at(bytes.as_slice(), index)),
        "text_at" => push_found(
            out,
            string_at(bytes.as_slice(), index).map(|text| text.as_bytes()),
        ),
        _ => Err(Fault::Meaningless),
    }
}

/// The answers to lines that add contents (`blob BYTES`, `user BYTES`, `text BYTES`, `id BYTES`) or read bytes (`blob_at INDEX BYTES`, and
/// so on).
pub fn push_answers(alloc: Global, out: &mut String, text: &str) -> Result<(), Fault> {
    let mut heaps = Heaps::new(alloc)?;
    heaps.push_lines(alloc, out, text)
}

impl Heaps {
    /// Heaps without contents.
    fn new(alloc: Global) -> Result<Heaps, NoMemory> {
        let (blobs, users, texts, ids) = four(
            BlobHeap::new(alloc),
            UserHeap::new(alloc),
            StringHeap::new(alloc),
            GuidHeap::new(alloc),
        )?;
        Ok(Heaps {
            blobs,
            users,
            texts,
            ids,
        })
    }

    fn push_lines(&mut self, alloc: Global, out: &mut String, text: &str) -> Result<(), Fault> {
        for line in text.lines() {
            if push_line(out, line)? {
                self.push_answer(alloc, out, line)?;
                out.push('\n')?;
            }
        }
        Ok(())
    }

    fn push_answer(&mut self, alloc: Global, out: &mut String, line: &str) -> Result<(), Fault> {
        let (heap, rest) = match line.split_once(' ') {
            Some(both) => both,
            None => (line, ""),
        };
        if heap.ends_with("_at") {
            return push_read(alloc, out, heap, rest);
        }
        let content = bytes_of(alloc, rest)?;
        let content = content.as_slice();
        match heap {
            "blob" => self.push_blob(out, content),
            "user" => self.push_units(out, content),
            "text" => self.push_text(out, content),
            "id" => self.push_id(out, content),
            _ => Err(Fault::Meaningless),
        }
    }

    fn push_blob(&mut self, out: &mut String, content: &[u8]) -> Result<(), Fault> {
        if !has_room(self.blobs.bytes(), content) {
            return Err(Fault::Meaningless);
        }
        let index = self.blobs.add(content)?;
        push_added(out, self.blobs.bytes(), index)
    }

    fn push_units(&mut self, out: &mut String, content: &[u8]) -> Result<(), Fault> {
        if !has_room(self.users.bytes(), content) || content.len() % 2 != 0 {
            return Err(Fault::Meaningless);
        }
        let index = self.users.add(content)?;
        push_added(out, self.users.bytes(), index)
    }

    fn push_text(&mut self, out: &mut String, content: &[u8]) -> Result<(), Fault> {
        let Ok(content) = str::from_utf8(content) else {
            return Err(Fault::Meaningless);
        };
        let content = content.as_bytes();
        if !has_room(self.texts.bytes(), content) || content.contains(&0) {
            return Err(Fault::Meaningless);
        }
        let index = self.texts.add(content)?;
        push_added(out, self.texts.bytes(), index)
    }

    fn push_id(&mut self, out: &mut String, content: &[u8]) -> Result<(), Fault> {
        if !has_room(self.ids.bytes(), content) || content.len() != 16 {
            return Err(Fault::Meaningless);
        }
        let index = self.ids.add(content)?;
        push_added(out, self.ids.bytes(), index)
    }
}

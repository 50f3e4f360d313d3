//! A heap's bytes with the chains over them, and one entry more.
ghost use Rattle.std.specs.Prelude.{◌≡◌, ℕ, ◌+◌, ◌<◌, ◌≤◌, ◌^◌, ◌++◌, List, [], length, IfSome, IfNone, IfOk, OnOk, OnErr};
ghost use Rattle.il_base.specs.Numbers.{Packed, IsShortest, packed_bytes};

use crate::chains::Chains;
use il_base::{Bytes, NoMemory, push_packed};
use std::alloc::Global;

/// The bytes of a heap, and where its contents stand.
#[derive(Drop)]
pub struct Entries {
    pub bytes: Bytes,
    pub chains: Chains,
}

impl Entries {
    ghost use Rattle.heaps.specs.Finds.{Finds, IsPlaceOf, Lacks, AddsPlace};

    /// No entries, over these first bytes.
    pub fn new(alloc: Global, first: &[u8]) -> Result<Entries, NoMemory>
        ensures { IfOk result (λ e. (e.bytes ≡ first.now) × (e.chains.places ≡ []) × Finds e.chains e.bytes) }
    {
        Ok(Entries {
            bytes: Bytes::from_slice(alloc, first)?,
            chains: Chains::new(alloc),
        })
    }

    /// The index of the entry with this content.
    pub fn find(&self, content: &[u8]) -> Option<u32>
        requires { Finds self.now.chains self.now.bytes }
        ensures found { IfSome result (IsPlaceOf self.now.chains self.now.bytes content.now) }
        ensures none { IfNone result (Lacks self.now.chains self.now.bytes content.now) }
    {
        self.chains.find(self.bytes.as_slice(), content)
    }

    /// Makes room for so many entries, where there are none yet.
    pub fn make_room(&mut self, alloc: Global, count: usize) -> Result<(), NoMemory>
        requires { Finds self.old.chains self.old.bytes }
        ensures finds { Finds self.new.chains self.new.bytes }
        ensures bytes { self.new.bytes ≡ self.old.bytes }
        ensures places { self.new.chains.places ≡ self.old.chains.places }
    {
        self.chains.make_room(alloc, self.bytes.as_slice(), count)
    }

    /// Where the bytes end.
    pub fn end(&self) -> u32
        requires { length self.now.bytes < 2 ^ 29 }
        ensures { result ≡ length self.now.bytes }
    {
        self.bytes.len() as u32
    }

    /// Adds the entry `lead`, `content`, `tail` with this index at the end.
    pub fn add(
        &mut self,
        index: u32,
        lead: &[u8],
        content: &[u8],
        tail: &[u8],
    ) -> Result<(), NoMemory>
        requires finds { Finds self.old.chains self.old.bytes }
        requires lacks { Lacks self.old.chains self.old.bytes content.now }
        requires filled { 0 < length lead.now + length content.now + length tail.now }
        requires room { length self.old.bytes + length lead.now + length content.now + length tail.now < 2 ^ 29 }
        ensures finds { Finds self.new.chains self.new.bytes }
        ensures bytes { OnOk result (self.new.bytes ≡ self.old.bytes ++ (lead.now ++ (content.now ++ tail.now))) }
        ensures place { OnOk result (AddsPlace self.old.chains self.new.chains self.new.bytes index content.now) }
        ensures err { OnErr result ((self.new.bytes ≡ self.old.bytes) × (self.new.chains.places ≡ self.old.chains.places)) }
    {
        let len = self.bytes.len();
        let start = (len + lead.len()) as u32;
        append(&mut self.bytes, lead, content, tail)?;
        match self
            .chains
            .note(self.bytes.as_slice(), index, start, content)
        {
            Ok(()) => Ok(()),
            Err(NoMemory) => {
                self.bytes.truncate(len);
                Err(NoMemory)
            }
        }
    }

    /// Adds an entry with this index at the end: the packed length of `content` and `tail`, and these
    /// two.
    pub fn add_counted(&mut self, index: u32, content: &[u8], tail: &[u8]) -> Result<(), NoMemory>
        requires finds { Finds self.old.chains self.old.bytes }
        requires lacks { Lacks self.old.chains self.old.bytes content.now }
        requires filled { 0 < length content.now + length tail.now }
        requires room { length self.old.bytes + length content.now + length tail.now + 4 < 2 ^ 29 }
        ensures finds { Finds self.new.chains self.new.bytes }
        ensures bytes { OnOk result (self.new.bytes ≡ self.old.bytes ++ (packed_bytes (length content.now + length tail.now) ++ (content.now ++ tail.now))) }
        ensures place { OnOk result (AddsPlace self.old.chains self.new.chains self.new.bytes index content.now) }
        ensures err { OnErr result ((self.new.bytes ≡ self.old.bytes) × (self.new.chains.places ≡ self.old.chains.places)) }

        // What was added.
        ensures spells { Packed (packed_bytes (length content.now + length tail.now)) (length content.now + length tail.now) }
        ensures shortest { IsShortest Packed (packed_bytes (length content.now + length tail.now)) (length content.now + length tail.now) }
    {
        let len = self.bytes.len();
        push_packed(&mut self.bytes, (content.len() + tail.len()) as u32)?;
        match self.add(index, &[], content, tail) {
            Ok(()) => Ok(()),
            Err(NoMemory) => {
                self.bytes.truncate(len);
                Err(NoMemory)
            }
        }
    }
}

// Adds three pieces at the end, or none of them.
fn append(bytes: &mut Bytes, lead: &[u8], content: &[u8], tail: &[u8]) -> Result<(), NoMemory>
    ensures ok { OnOk result (bytes.new ≡ bytes.old ++ (lead.now ++ (content.now ++ tail.now))) }
    ensures err { OnErr result (bytes.new ≡ bytes.old) }
{
    let len = bytes.len();
    let added = extend(bytes, lead, content, tail);
    if added.is_err() {
        bytes.truncate(len);
    }
    added
}

// Adds three pieces at the end, or some of their bytes.
fn extend(bytes: &mut Bytes, lead: &[u8], content: &[u8], tail: &[u8]) -> Result<(), NoMemory>
    ensures ok { OnOk result (bytes.new ≡ bytes.old ++ (lead.now ++ (content.now ++ tail.now))) }
    ensures err { (more : List ℕ) × (bytes.new ≡ bytes.old ++ more) }
{
    if !lead.is_empty() {
        bytes.extend(lead)?;
    }
    bytes.extend(content)?;
    match tail {
        [] => Ok(()),
        [byte] => bytes.push(*byte),
        _ => bytes.extend(tail),
    }
}

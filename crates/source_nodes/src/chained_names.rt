//! Names of which the first with a text is found by its hash: a map leads from a hash to the
//! newest name with it, and a chain from each name to the newest older one with the same hash. Names are put in front, so
//! the newest is the first. Their texts stand one after the other in one list of bytes.

ghost use Rattle.std.specs.Prelude.{◌≡◌, ◌+◌, ◌<◌, ◌≤◌, ◌^◌, ◌∷◌, [], length, position, bytes_eq, slice_index_or, IfOk, OnOk, OnErr};
ghost use Rattle.source_nodes.specs.ChainedTexts.{text_in};

use crate::equality::are_equal;
use crate::hashes::text_hash;
use hash_places::HashPlaces;
use il_base::{Bytes, Items, NoMemory, Text};
use std::alloc::Global;
use std::marker::Model;

// A name: where its text stands among those of all names, and the newest older name with the same hash.
#[derive(Clone, Copy)]
struct ChainedName {
    start: usize,
    len: usize,
    next: Option<usize>,
}

/// Names that are found by hash. Contracts see the list of them.
#[derive(Drop)]
pub struct ChainedNames {
    // From a hash to the place of the newest name with it.
    newest: HashPlaces,
    texts: Bytes,
    // The names, from the last to the first.
    names: Items<ChainedName>,
}

impl Model for ChainedNames {
    ghost use Rattle.std.specs.Prelude.{ℕ, List, reverse};
    ghost use Rattle.hash_places.specs.Slots.{place_of};
    ghost use Rattle.source_nodes.specs.ChainedTexts.{AreChained, texts_in};

    ghost Value = { List (List ℕ) };

    ghost view = { λ n. reverse (texts_in n.texts n.names) };

    ghost invariant = { λ n. AreChained (place_of n.newest) n.texts n.names };
}

impl ChainedNames {
    /// No names. Takes no memory.
    pub fn new(alloc: Global) -> ChainedNames
        ensures { result ≡ [] }
    {
        ChainedNames {
            newest: HashPlaces::new(alloc),
            texts: Bytes::new(alloc),
            names: Items::new(alloc),
        }
    }

    /// No names, with room for so many short ones.
    pub fn with_room(alloc: Global, count: usize) -> Result<ChainedNames, NoMemory>
        ensures { IfOk result (λ names. names ≡ []) }
    {
        let newest = HashPlaces::with_room(alloc, count)?;
        let texts = Bytes::with_capacity(alloc, count.saturating_mul(8))?;
        let names = Items::with_capacity(alloc, count)?;
        Ok(ChainedNames {
            newest,
            texts,
            names,
        })
    }

    /// The number of names.
    pub fn len(&self) -> usize
        ensures value { result ≡ length self.now }
        ensures few { result < 2 ^ 63 }
    {
        self.names.as_slice().len()
    }

    /// The number of the first name that is this text. Takes no memory.
    pub fn find(&self, text: &[u8]) -> Option<usize>
        ensures { result ≡ position (bytes_eq text.now) self.now }
    {
        let mut at = self.newest.get(text_hash(text));
        while let Some(place) = at {
            let name = *self.names.at(place);
            if are_equal(text_in(self.texts.as_slice(), name), text) {
                return Some(self.names.len() - 1 - place);
            }
            at = name.next;
        }
        None
    }

    /// The text of name number `k`. Takes no memory.
    pub fn text_at(&self, k: usize) -> &[u8]
        requires { k < length self.now }
        ensures { result.now ≡ slice_index_or self.now k [] }
    {
        let place = self.names.len() - 1 - k;
        text_in(self.texts.as_slice(), *self.names.at(place))
    }

    /// Puts a name in front.
    pub fn push_front(&mut self, name: Text) -> Result<(), NoMemory>
        ensures ok { OnOk result (self.new ≡ name ∷ self.old) }
        ensures err { OnErr result (self.new ≡ self.old) }
    {
        self.push_text(name.as_bytes())?;
        Ok(())
    }

    /// Puts a name with this text in front.
    pub fn push_text(&mut self, text: &[u8]) -> Result<(), NoMemory>
        ensures ok { OnOk result (self.new ≡ text.now ∷ self.old) }
        ensures err { OnErr result (self.new ≡ self.old) }
    {
        let place = self.names.as_slice().len();
        let start = self.texts.len();
        let len = text.len();
        self.texts.extend(text)?;
        self.names.push(ChainedName {
            start,
            len,
            next: None,
        })?;
        match self.newest.insert(text_hash(text), place) {
            Ok(next) => {
                self.names.set(place, ChainedName { start, len, next });
                Ok(())
            }
            Err(_) => {
                self.names.truncate(place);
                Err(NoMemory)
            }
        }
    }
}

// The text of a name.
fn text_in(texts: &[u8], name: ChainedName) -> &[u8]
    requires { name.start + name.len ≤ length texts.now }
    ensures { result.now ≡ text_in texts.now name }
{
    &texts[name.start..name.start + name.len]
}

//! The names of a list of declarations, which are put in front one by one. They are found by their hash; only one that was to
//! be the only one is kept apart.

ghost use Rattle.std.specs.Prelude.{◌≡◌, ◌<◌, ◌∷◌, [], length, position, bytes_eq, slice_index_or, IfOk, OnOk, OnErr};
ghost use Rattle.source_nodes.specs.ChainedTexts.{one_of};
ghost use Rattle.source_syntax.specs.Repeats.{is_repeat};

use il_base::{Bytes, NoMemory, Text};
use source_nodes::chained_names::ChainedNames;
use source_nodes::equality::are_equal;
use std::alloc::Global;
use std::marker::Model;

/// The names of declarations. Contracts see the list of them.
#[derive(Drop)]
pub struct Declared {
    alloc: Global,
    // Whether there is room for several names.
    many: bool,
    // The name that was put there first, where there was no room for several.
    only: Option<Bytes>,
    // The names in front of it.
    more: ChainedNames,
}

impl Model for Declared {
    ghost use Rattle.std.specs.Prelude.{ℕ, List, ◌++◌};
    ghost use Rattle.source_nodes.specs.ChainedTexts.{one_of};

    ghost Value = { List (List ℕ) };

    ghost view = { λ n. n.more ++ one_of n.only };
}

impl Declared {
    /// No names. Takes no memory.
    pub fn new(alloc: Global) -> Declared
        ensures { result ≡ [] }
    {
        Declared {
            alloc,
            many: false,
            only: None,
            more: ChainedNames::new(alloc),
        }
    }

    /// No names, with room for so many.
    pub fn with_room(alloc: Global, count: usize) -> Result<Declared, NoMemory>
        ensures { IfOk result (λ names. names ≡ []) }
    {
        if count < 2 {
            return Ok(Declared::new(alloc));
        }
        let more = ChainedNames::with_room(alloc, count)?;
        Ok(Declared {
            alloc,
            many: true,
            only: None,
            more,
        })
    }

    /// The number of names.
    pub fn len(&self) -> usize
        ensures { result ≡ length self.now }
    {
        self.more.len() + count_of(&self.only)
    }

    /// The number of the first name that is this text. Takes no memory.
    pub fn find(&self, text: &[u8]) -> Option<usize>
        ensures { result ≡ position (bytes_eq text.now) self.now }
    {
        match self.more.find(text) {
            Some(k) => Some(k),
            None => match place_of(&self.only, text) {
                Some(k) => Some(self.more.len() + k),
                None => None,
            },
        }
    }

    /// Whether name number `k` is one that stands before it. Takes no memory.
    pub fn is_repeat(&self, k: usize) -> bool
        requires { k < length self.now }
        ensures { result ≡ is_repeat self.now k }
    {
        match self.find(self.text_at(k)) {
            Some(first) => first < k,
            None => false,
        }
    }

    // The text of name number `k`.
    fn text_at(&self, k: usize) -> &[u8]
        requires { k < length self.now }
        ensures { result.now ≡ slice_index_or self.now k [] }
    {
        if k < self.more.len() {
            self.more.text_at(k)
        } else {
            text_of(&self.only)
        }
    }

    /// Puts a name in front.
    pub fn push_front(&mut self, name: Text) -> Result<(), NoMemory>
        ensures ok { OnOk result (self.new ≡ name ∷ self.old) }
        ensures err { OnErr result (self.new ≡ self.old) }
    {
        self.push_text(name.as_bytes())?;
        Ok(())
    }

    /// Puts a name with this text in front.
    pub fn push_text(&mut self, text: &[u8]) -> Result<(), NoMemory>
        ensures ok { OnOk result (self.new ≡ text.now ∷ self.old) }
        ensures err { OnErr result (self.new ≡ self.old) }
    {
        if !self.many && self.more.len() == 0 && count_of(&self.only) == 0 {
            let name = Bytes::from_slice(self.alloc, text)?;
            self.only = Some(name);
            Ok(())
        } else {
            self.more.push_text(text)?;
            Ok(())
        }
    }
}

// How many names these are.
fn count_of(only: &Option<Bytes>) -> usize
    ensures count { result ≡ length (one_of only.now) }
    ensures few { result < 2 }
{
    match only {
        Some(_) => 1,
        None => 0,
    }
}

// The place of the name, if it is this text.
fn place_of(only: &Option<Bytes>, text: &[u8]) -> Option<usize>
    ensures { result ≡ position (bytes_eq text.now) (one_of only.now) }
{
    match only {
        Some(name) => {
            if are_equal(text, name.as_slice()) {
                Some(0)
            } else {
                None
            }
        }
        None => None,
    }
}

// The text of the name; none where there is no name.
fn text_of(only: &Option<Bytes>) -> &[u8]
    ensures { result.now ≡ slice_index_or (one_of only.now) 0 [] }
{
    match only {
        Some(name) => name.as_slice(),
        None => &[],
    }
}

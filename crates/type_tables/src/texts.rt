//! Distinct texts, found by their hash: a map leads from a hash to the newest text with it, and a chain from each text to
//! the newest older one with the same hash.
ghost use Rattle.std.specs.Prelude.{◌≡◌, ◌<◌, ◌++◌, ◌∷◌, ℕ, [], length, slice_get, Some, IfSome, IfNone, OnOk, OnErr, nat_eq};
ghost use Rattle.indexmap.specs.IndexMap.{get};
ghost use Rattle.type_hierarchy.specs.NameHash.{text_hash};

use il_lists::{Items, NoMemory, Text};
use indexmap::IndexMap;
use std::alloc::Global;
use std::marker::Model;
use type_hierarchy::names::{START, mix_text};

/// Texts that are kept once each. Contracts see the list of them.
#[derive(Drop)]
pub struct Texts {
    // From a hash to the place of the newest text with it.
    newest: IndexMap<u64, usize>,
    texts: Items<Text>,
    nexts: Items<Option<usize>>,
}

impl Model for Texts {
    ghost use Rattle.std.specs.Prelude.{ℕ, List, nat_eq};
    ghost use Rattle.indexmap.specs.IndexMap.{get};
    ghost use Rattle.type_hierarchy.specs.Chains.{IsChained};
    ghost use Rattle.type_hierarchy.specs.NameHash.{text_hash};

    ghost Value = { List (List ℕ) };

    ghost view = { λ n. n.texts };

    ghost invariant = { λ n. IsChained text_hash (get nat_eq n.newest) n.texts n.nexts };
}

impl Texts {
    /// No texts. Takes no memory.
    pub fn new(alloc: Global) -> Texts
        ensures { result ≡ [] }
    {
        Texts {
            newest: IndexMap::new(alloc),
            texts: Items::new(alloc),
            nexts: Items::new(alloc),
        }
    }

    /// The place of a text. Takes no memory.
    pub fn find(&self, text: &[u8]) -> Option<usize>
        ensures found { IfSome result (λ k. slice_get self.now k ≡ Some text.now) }
        ensures only { IfSome result (λ k. (j : ℕ) → slice_get self.now j ≡ Some text.now → j ≡ k) }
        ensures none { IfNone result ((k : ℕ) → slice_get self.now k ≡ Some text.now → ⊥) }
    {
        let mut at = self.newest.get(&hash_of(text)).copied();
        while let Some(place) = at {
            if self.texts.at(place).as_bytes() == text {
                return Some(place);
            }
            at = *self.nexts.at(place);
        }
        None
    }

    /// Adds a text, which isn't there, at the end.
    pub fn push(&mut self, text: Text) -> Result<(), NoMemory>
        requires { (k : ℕ) → slice_get self.old k ≡ Some text → ⊥ }
        ensures ok { OnOk result (self.new ≡ self.old ++ text ∷ []) }
        ensures err { OnErr result (self.new ≡ self.old) }
    {
        let hash = hash_of(text.as_bytes());
        let next = self.newest.get(&hash).copied();
        let place = self.texts.len();
        self.texts.push(text)?;
        if let Err(error) = self.nexts.push(next) {
            self.texts.truncate(place);
            return Err(error);
        }
        match self.newest.insert(hash, place) {
            Ok(_) => Ok(()),
            Err(_) => {
                self.texts.truncate(place);
                self.nexts.truncate(place);
                Err(NoMemory)
            }
        }
    }
}

/// The hash of a text.
#[tactic(auto, unfolding(type_hierarchy::specs::NameHash::text_hash))]
fn hash_of(text: &[u8]) -> u64
    ensures { result ≡ text_hash text.now }
{
    mix_text(START, text)
}

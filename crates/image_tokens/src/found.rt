//! What stands in a tree, found again by its hash, with the token that it has.
ghost use Rattle.std.specs.Prelude.{◌≡◌, ◌++◌, ◌∷◌, ◌⊎◌, [], Some, None, IfOk, OnOk, OnErr};
ghost use Rattle.image_tokens.specs.Found.{token_in};

use hash_places::HashPlaces;
use il_base::{Items, NoMemory};
use std::alloc::Global;
use std::marker::Model;

/// A part of a tree that can be found again.
pub trait Term {
    ghost use Rattle.std.specs.Prelude.{◌≡◌, ◌↔◌, ℕ, IsTrue};
    ghost use Rattle.std.specs.Coded.{Coded};

    /// The hash of a term.
    ghost hash: { Self → ℕ };

    /// What tells terms apart.
    ghost stored: { Coded Self };

    /// Its hash.
    fn hashed(&self) -> u64
        ensures { result ≡ hash self.now };

    /// Whether it equals another one with the same hash.
    fn is_same(&self, other: &Self, hashed: u64) -> bool
        requires this { hashed ≡ hash self.now }
        requires that { hashed ≡ hash other.now }
        ensures { IsTrue result ↔ (self.now ≡ other.now) };
}

/// A term with its token.
#[derive(Clone, Copy)]
struct Entry<'a, T> {
    term: &'a T,
    token: u32,
    // The place of the newest older entry with the same hash.
    next: Option<usize>,
}

/// Distinct terms with their tokens. Contracts see the list of them.
#[derive(Drop)]
pub struct Found<'a, T: Term> {
    // From a hash to the place of the newest entry with it.
    newest: HashPlaces,
    entries: Items<Entry<'a, T>>,
}

impl<'a, T: Term> Model for Found<'a, T> {
    ghost use Rattle.std.specs.Prelude.{List, ℕ, map};
    ghost use Rattle.hash_places.specs.Slots.{place_of};
    ghost use Rattle.image_tokens.specs.Chains.{IsChained};

    ghost Value = { List (T × ℕ) };

    ghost view = { λ f. map (λ e. (e.term.now, e.token)) f.entries };

    ghost invariant = { λ f. IsChained T.hash (place_of f.newest) (map (λ e. e.term.now) f.entries) (map (λ e. e.next) f.entries) };
}

impl<'a, T: Term> Found<'a, T> {
    /// No terms. Takes no memory.
    pub fn new(alloc: Global) -> Found<'a, T>
        ensures { result ≡ [] }
    {
        Found {
            newest: HashPlaces::new(alloc),
            entries: Items::new(alloc),
        }
    }

    /// Makes room for so many terms, where there are none yet.
    pub fn make_room(&mut self, alloc: Global, count: usize) -> Result<(), NoMemory>
        ensures { self.new ≡ self.old }
    {
        if self.entries.is_empty() {
            self.newest = HashPlaces::with_room(alloc, count)?;
            self.entries.reserve(count)?;
        }
        Ok(())
    }

    /// The token of a term. Takes no memory.
    pub fn find(&self, term: &T) -> Option<u32>
        ensures { result ≡ token_in T.stored self.now term.now }
    {
        self.find_hashed(term.hashed(), term)
    }

    /// The token of a term with this hash. Takes no memory.
    #[tactic(auto, using(crate::proofs::FoundLemmas::at_map))]
    pub fn find_hashed(&self, hash: u64, term: &T) -> Option<u32>
        requires { hash ≡ T.hash term.now }
        ensures { result ≡ token_in T.stored self.now term.now }
    {
        let mut at = self.newest.get(hash);
        while let Some(place) = at {
            let entry = self.entries.at(place);
            if entry.term.is_same(term, hash) {
                return Some(entry.token);
            }
            at = entry.next;
        }
        None
    }

    /// The token of a term, which is given this one where it has none.
    #[tactic(auto, using(crate::proofs::NameLemmas::found_last))]
    pub fn give(&mut self, term: &'a T, token: u32) -> Result<u32, NoMemory>
        ensures found { IfOk result (λ given. token_in T.stored self.new term.now ≡ Some given) }
        ensures kept { OnOk result ((self.new ≡ self.old) ⊎ (self.new ≡ self.old ++ (term.now, token) ∷ [])) }
    {
        let hash = term.hashed();
        if let Some(given) = self.find_hashed(hash, term) {
            return Ok(given);
        }
        self.add_hashed(hash, term, token)?;
        Ok(token)
    }

    /// Adds a term, which isn't there, with its token.
    pub fn add(&mut self, term: &'a T, token: u32) -> Result<(), NoMemory>
        requires { token_in T.stored self.old term.now ≡ None }
        ensures ok { OnOk result (self.new ≡ self.old ++ (term.now, token) ∷ []) }
        ensures err { OnErr result (self.new ≡ self.old) }
    {
        self.add_hashed(term.hashed(), term, token)
    }

    /// Adds a term with this hash, which isn't there, with its token.
    pub fn add_hashed(&mut self, hash: u64, term: &'a T, token: u32) -> Result<(), NoMemory>
        requires hash { hash ≡ T.hash term.now }
        requires none { token_in T.stored self.old term.now ≡ None }
        ensures ok { OnOk result (self.new ≡ self.old ++ (term.now, token) ∷ []) }
        ensures err { OnErr result (self.new ≡ self.old) }
    {
        let next = self.newest.get(hash);
        let place = self.entries.as_slice().len();
        self.entries.push(Entry { term, token, next })?;
        match self.newest.insert(hash, place) {
            Ok(_) => Ok(()),
            Err(_) => {
                self.entries.truncate(place);
                Err(NoMemory)
            }
        }
    }
}

ghost use Rattle.std.specs.Prelude.{◌≡◌, ◌↔◌, [], IsTrue, OnOk};
ghost use Rattle.std.specs.List.{Contains};
ghost use Rattle.class_members.specs.Facts.{IsNoted};

use il_lists::NoMemory;
use indexmap::IndexSet;
use std::alloc::Global;
use std::marker::Model;

/// Lists of numbers, each of which says of a type that it offers something. Contracts see the list of them.
#[derive(Drop)]
pub struct Facts {
    facts: IndexSet<Vec<u64>>,
}

impl Model for Facts {
    ghost use Rattle.std.specs.Prelude.{List, ℕ, map};

    ghost Value = { List (List ℕ) };

    ghost view = { λ f. map (λ v. v.items) f.facts.keys };
}

impl Facts {
    /// None yet. Takes no memory.
    pub fn new(alloc: Global) -> Facts
        ensures { result ≡ [] }
    {
        Facts {
            facts: IndexSet::new(alloc),
        }
    }

    /// Whether this is among them.
    pub fn has(&self, fact: &[u64]) -> bool
        ensures { IsTrue result ↔ Contains self.now fact.now }
    {
        match self.facts.get_index_of(fact) {
            Some(_) => true,
            None => false,
        }
    }

    /// Adds a fact, where it isn't there.
    pub fn add(&mut self, alloc: Global, fact: &[u64]) -> Result<(), NoMemory>
        ensures { OnOk result (IsNoted self.old self.new fact.now) }
    {
        let fact = Vec::from_slice(alloc, fact)?;
        self.facts.insert(fact)?;
        Ok(())
    }
}

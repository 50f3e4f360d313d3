ghost use Rattle.std.specs.Prelude.{◌≡◌, ℕ, ◌∷◌, ◌++◌, [], slice_get, Some, IfSome, IfNone, OnOk, OnErr};

use il_lists::NoMemory;
use indexmap::IndexSet;
use std::alloc::Global;
use std::marker::Model;

/// Distinct lists of numbers, found by `indexmap`. Contracts see them as the list of those lists.
#[derive(Drop)]
pub struct Keys {
    keys: IndexSet<Vec<u64>>,
}

impl Model for Keys {
    ghost use Rattle.std.specs.Prelude.{List, ℕ, map};

    ghost Value = { List (List ℕ) };

    ghost view = { λ k. map (λ v. v.items) k.keys.keys };
}

impl Keys {
    /// No lists. Takes no memory.
    pub fn new(alloc: Global) -> Keys
        ensures { result ≡ [] }
    {
        Keys {
            keys: IndexSet::new(alloc),
        }
    }

    /// The place of `key`.
    pub fn find(&self, key: &[u64]) -> Option<usize>
        ensures found { IfSome result (λ k. slice_get self.now k ≡ Some key.now) }
        ensures none { IfNone result ((k : ℕ) → slice_get self.now k ≡ Some key.now → ⊥) }
    {
        self.keys.get_index_of(key)
    }

    /// Adds a copy of `key`, which isn't there, at the end.
    pub fn push(&mut self, alloc: Global, key: &[u64]) -> Result<(), NoMemory>
        requires { (k : ℕ) → slice_get self.old k ≡ Some key.now → ⊥ }
        ensures ok { OnOk result (self.new ≡ self.old ++ key.now ∷ []) }
        ensures err { OnErr result (self.new ≡ self.old) }
    {
        let key = Vec::from_slice(alloc, key)?;
        self.keys.insert(key)?;
        Ok(())
    }
}

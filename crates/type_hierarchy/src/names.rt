//! Distinct names of types, found by their hash: a map leads from a hash to the newest name with it, and a
//! chain from each name to the newest older one with the same hash.
ghost use Rattle.std.specs.Prelude.{◌≡◌, ◌<◌, ◌++◌, ◌∷◌, ◌↔◌, ℕ, [], length, slice_get, Some, IsTrue, IfSome, IfNone, OnOk, OnErr, nat_eq};
ghost use Rattle.indexmap.specs.IndexMap.{get};
ghost use Rattle.type_terms.specs.declared.name.TypeName.{TypeName};
ghost use Rattle.type_hierarchy.specs.Distinct.{AreOnce};
ghost use Rattle.type_hierarchy.specs.NameHash.{mix, mix_text, mix_id, mix_path, mix_scope, name_hash};
ghost use Rattle.type_hierarchy.specs.Names.{full_name, is_among};

use il_lists::{Items, NoMemory};
use indexmap::IndexMap;
use std::alloc::Global;
use std::marker::Model;
use type_terms::{Scope, TypeId, TypeName};

/// Names that are kept once each. Contracts see the list of them.
#[derive(Drop)]
pub struct Names {
    // From a hash to the place of the newest name with it.
    newest: IndexMap<u64, usize>,
    names: Items<TypeName>,
    nexts: Items<Option<usize>>,
}

impl Model for Names {
    ghost use Rattle.std.specs.Prelude.{List, nat_eq};
    ghost use Rattle.indexmap.specs.IndexMap.{get};
    ghost use Rattle.type_terms.specs.declared.name.TypeName.{TypeName};
    ghost use Rattle.type_hierarchy.specs.Chains.{IsChained};
    ghost use Rattle.type_hierarchy.specs.NameHash.{name_hash};

    ghost Value = { List TypeName };

    ghost view = { λ n. n.names };

    ghost invariant = { λ n. IsChained name_hash (get nat_eq n.newest) n.names n.nexts };
}

impl Names {
    /// No names. Takes no memory.
    pub fn new(alloc: Global) -> Names
        ensures { result ≡ [] }
    {
        Names {
            newest: IndexMap::new(alloc),
            names: Items::new(alloc),
            nexts: Items::new(alloc),
        }
    }

    /// The place of the name of `path` in `scope`. Takes no memory.
    pub fn find(&self, scope: Scope, path: &[TypeId]) -> Option<usize>
        ensures found { IfSome result (λ k. slice_get self.now k ≡ Some (full_name scope path.now)) }
        ensures only { IfSome result (λ k. (j : ℕ) → slice_get self.now j ≡ Some (full_name scope path.now) → j ≡ k) }
        ensures none { IfNone result ((k : ℕ) → slice_get self.now k ≡ Some (full_name scope path.now) → ⊥) }
    {
        let mut at = self.newest.get(&hash_of(scope, path)).copied();
        while let Some(place) = at {
            if is_name(self.names.at(place), scope, path) {
                return Some(place);
            }
            at = *self.nexts.at(place);
        }
        None
    }

    /// Whether the name of `path` in `scope` is there. Takes no memory.
    pub fn has(&self, scope: Scope, path: &[TypeId]) -> bool
        ensures { result ≡ is_among self.now (full_name scope path.now) }
    {
        self.find(scope, path).is_some()
    }

    /// Adds a name, which isn't there, at the end.
    pub fn push(&mut self, name: TypeName) -> Result<(), NoMemory>
        requires { (k : ℕ) → slice_get self.old k ≡ Some name → ⊥ }
        ensures ok { OnOk result (self.new ≡ self.old ++ name ∷ []) }
        ensures err { OnErr result (self.new ≡ self.old) }
    {
        let hash = hash_of(name.scope, name.path.as_slice());
        let next = self.newest.get(&hash).copied();
        let place = self.names.len();
        self.names.push(name)?;
        if let Err(error) = self.nexts.push(next) {
            self.names.truncate(place);
            return Err(error);
        }
        match self.newest.insert(hash, place) {
            Ok(_) => Ok(()),
            Err(_) => {
                self.names.truncate(place);
                self.nexts.truncate(place);
                Err(NoMemory)
            }
        }
    }

    /// The number of names, of which none stands twice.
    pub fn len(&self) -> usize
        ensures len { result ≡ length self.now }
        ensures once { AreOnce self.now }
    {
        self.names.len()
    }

    /// The name at place `k`, counted from 0.
    pub fn at(&self, k: usize) -> &TypeName
        requires { k < length self.now }
        ensures { slice_get self.now k ≡ Some result.now }
    {
        self.names.at(k)
    }
}

/// Whether `name` is that of `path` in `scope`.
fn is_name(name: &TypeName, scope: Scope, path: &[TypeId]) -> bool
    ensures { IsTrue result ↔ (name.now ≡ full_name scope path.now) }
{
    name.scope == scope && is_path(name.path.as_slice(), path)
}

/// Whether two paths are equal.
pub fn is_path(a: &[TypeId], b: &[TypeId]) -> bool
    ensures { IsTrue result ↔ (a.now ≡ b.now) }
{
    if a.len() != b.len() {
        return false;
    }
    for k in 0..a.len() {
        if !is_id(&a[k], &b[k]) {
            return false;
        }
    }
    true
}

/// Whether two ids are equal.
fn is_id(a: &TypeId, b: &TypeId) -> bool
    ensures { IsTrue result ↔ (a.now ≡ b.now) }
{
    a.space.as_bytes() == b.space.as_bytes() && a.name.as_bytes() == b.name.as_bytes()
}

pub const START: u64 = 0xCBF2_9CE4_8422_2325;

/// The hash of a name.
#[tactic(auto, unfolding(crate::specs::NameHash::name_hash))]
fn hash_of(scope: Scope, path: &[TypeId]) -> u64
    ensures { result ≡ name_hash (full_name scope path.now) }
{
    mix_path(mix_scope(START, scope), path)
}

#[tactic(auto, unfolding(crate::specs::NameHash::mix_path))]
fn mix_path(hash: u64, path: &[TypeId]) -> u64
    ensures { result ≡ mix_path hash path.now }
{
    let mut hash = hash;
    for id in path {
        hash = mix_id(hash, id);
    }
    hash
}

#[tactic(auto, unfolding(crate::specs::NameHash::mix_id))]
fn mix_id(hash: u64, id: &TypeId) -> u64
    ensures { result ≡ mix_id hash id.now }
{
    let hash = mix_text(hash, id.space.as_bytes());
    mix_text(mix(hash, 0xFF), id.name.as_bytes())
}

#[tactic(auto, unfolding(crate::specs::NameHash::mix_scope))]
fn mix_scope(hash: u64, scope: Scope) -> u64
    ensures { result ≡ mix_scope hash scope }
{
    match scope {
        Scope::Here => hash,
        Scope::Extern(number) => mix(mix(hash, 0x100), u64::from(number)),
    }
}

#[tactic(auto, unfolding(crate::specs::NameHash::mix_text))]
pub fn mix_text(hash: u64, text: &[u8]) -> u64
    ensures { result ≡ mix_text hash text.now }
{
    let mut hash = hash;
    for byte in text {
        hash = mix(hash, u64::from(*byte));
    }
    hash
}

/// One step of FNV-1a.
#[tactic(auto, unfolding(crate::specs::NameHash::mix))]
fn mix(hash: u64, number: u64) -> u64
    ensures { result ≡ mix hash number }
{
    (hash ^ number).wrapping_mul(0x0000_0100_0000_01B3)
}

ghost use Rattle.std.specs.Prelude.{◌≡◌, ◌<◌, [], ◌∷◌, ◌++◌, length, slice_get, IfOk, OnOk, OnErr, Some};

use crate::TypeId;
use il_lists::{Copies, Items, NoMemory};
use std::alloc::Global;
use std::marker::Model;
use std::slice;

/// A path of nested classes, outermost first, that is never empty. Contracts see it as the list of its ids. The path of
/// a class that is nested in none takes no memory of its own.
#[derive(Drop)]
pub struct Path {
    held: Held,
}

/// The ids of a path, in the value itself where there is one.
#[derive(Drop)]
enum Held {
    One { id: TypeId, alloc: Global },
    Nested(Items<TypeId>),
}

impl Model for Path {
    ghost use Rattle.std.specs.Prelude.{List, ◌<◌, length};
    ghost use Rattle.type_terms.specs.declared.name.TypeId.{TypeId};
    ghost use Rattle.type_terms.specs.HeldIds.{held_ids};

    ghost Value = { List TypeId };

    ghost view = { λ p. held_ids p.held };

    ghost invariant = { λ p. 0 < length (held_ids p.held) };
}

impl Path {
    /// The path of the one class `first`.
    pub fn new(alloc: Global, first: TypeId) -> Result<Path, NoMemory>
        ensures { IfOk result (λ p. p ≡ first ∷ []) }
    {
        Ok(Path {
            held: Held::One { id: first, alloc },
        })
    }

    /// Adds the class `id` that the last one of the path nests.
    pub fn push(&mut self, id: TypeId) -> Result<(), NoMemory>
        ensures ok { OnOk result (self.new ≡ self.old ++ id ∷ []) }
        ensures err { OnErr result (self.new ≡ self.old) }
    {
        match &mut self.held {
            Held::Nested(ids) => ids.push(id)?,
            Held::One { id: first, alloc } => {
                let first = first.copy(*alloc)?;
                let ids = Items::pair(*alloc, first, id)?;
                self.held = Held::Nested(ids);
            }
        }
        Ok(())
    }

    /// The number of classes, which is not 0.
    pub fn len(&self) -> usize
        ensures len { result ≡ length self.now }
        ensures some { 0 < result }
    {
        self.as_slice().len()
    }

    /// The class at place `k`, counted from 0.
    pub fn at(&self, k: usize) -> &TypeId
        requires { k < length self.now }
        ensures { slice_get self.now k ≡ Some result.now }
    {
        &self.as_slice()[k]
    }

    /// Lends the classes, outermost first.
    pub fn as_slice(&self) -> &[TypeId]
        ensures ids { result.now ≡ self.now }
        ensures some { 0 < length result.now }
    {
        match &self.held {
            Held::One { id, .. } => slice::from_ref(id),
            Held::Nested(ids) => ids.as_slice(),
        }
    }
}

impl Copies for Path {
    fn copy(&self, alloc: Global) -> Result<Path, NoMemory> {
        match &self.held {
            Held::One { id, .. } => {
                let id = id.copy(alloc)?;
                Path::new(alloc, id)
            }
            Held::Nested(ids) => {
                let ids = ids.copy(alloc)?;
                Ok(Path {
                    held: Held::Nested(ids),
                })
            }
        }
    }
}

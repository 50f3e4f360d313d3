ghost use Rattle.std.specs.Prelude.{◌≡◌, ◌+◌, ◌<◌, ◌≤◌, ◌↔◌, [], length, map, slice_get, Some, IsTrue, IfOk};
ghost use Rattle.type_terms.specs.Nodes.{nodes, owner_nodes, list_nodes};
ghost use Rattle.type_terms.specs.declared.term.SigType.TheVariants.{Mod};
ghost use Rattle.sig_pool.specs.Terms.{children, AllBelow, built, terms, term_of};
ghost use Rattle.sig_pool.specs.Shapes.{node_of};

use crate::keys::Keys;
use crate::shape::Shape;
use crate::{Node, SigId, SigIds};
use il_lists::{Items, NoMemory};
use std::alloc::Global;
use std::marker::Model;
use type_terms::{Owner, SigType};

/// Types that are kept once each. Contracts see a pool as the list of its nodes.
///
/// A node's children stand before it, and no node stands twice, so two ids are equal exactly where
/// their types are.
#[derive(Drop)]
pub struct SigPool {
    alloc: Global,
    nodes: Items<Node>,
    keys: Keys,
    // The key of the node that is looked for.
    key: Items<u64>,
}

impl Model for SigPool {
    ghost use Rattle.std.specs.Prelude.{List};
    ghost use Rattle.sig_pool.specs.declared.node.Node.{Node};
    ghost use Rattle.sig_pool.specs.Stored.{IsStored};

    ghost Value = { List Node };

    ghost view = { λ p. p.nodes };

    ghost invariant = { λ p. IsStored p.nodes p.keys };
}

impl SigPool {
    ghost use Rattle.sig_pool.specs.Pool.{IsPool, Extends, Has, HasAll};

    /// A pool with no nodes. Takes no memory.
    pub fn new(alloc: Global) -> SigPool
        ensures { result ≡ [] }
    {
        SigPool {
            alloc,
            nodes: Items::new(alloc),
            keys: Keys::new(alloc),
            key: Items::new(alloc),
        }
    }

    /// The number of nodes. In a pool each child's id is below its own, and no node stands twice.
    pub fn len(&self) -> usize
        ensures len { result ≡ length self.now }
        ensures pool { IsPool self.now }
    {
        self.nodes.len()
    }

    /// The pool's allocator.
    pub(crate) fn alloc(&self) -> Global {
        self.alloc
    }

    /// Whether there are no nodes.
    pub fn is_empty(&self) -> bool
        ensures { IsTrue result ↔ (self.now ≡ []) }
    {
        self.nodes.is_empty()
    }

    /// The node of `id`. Its children's ids are below its own. Takes no memory.
    #[tactic(auto, using(crate::proofs::PoolLaws::term_is))]
    pub fn node(&self, id: SigId) -> &Node
        requires { id < length self.now }
        ensures node { slice_get self.now id ≡ Some result.now }
        ensures below { AllBelow id (children result.now) }
        ensures term { term_of self.now id ≡ built (terms self.now) result.now }
    {
        self.nodes.at(id.place())
    }

    /// Whether `a` and `b` are one id, which is exactly where their types are equal. Takes no memory.
    #[tactic(auto, using(crate::proofs::PoolLaws::same_terms))]
    pub fn same(&self, a: SigId, b: SigId) -> bool
        requires a { a < length self.now }
        requires b { b < length self.now }
        ensures ids { IsTrue result ↔ (a ≡ b) }
        ensures types { IsTrue result ↔ (term_of self.now a ≡ term_of self.now b) }
    {
        let _ = &self.nodes;
        a == b
    }

    /// The id of the type `t`, which the pool gets where it lacks it. Each id that was given keeps its
    /// type, after a refusal for want of memory too, though nodes may have been added.
    #[cycle(intern)]
    #[tactic(auto, using(crate::proofs::Building::has_Prim, crate::proofs::Building::has_Class, crate::proofs::Building::has_Value, crate::proofs::Building::has_Var, crate::proofs::Building::has_MVar, crate::proofs::Building::has_Inst, crate::proofs::PoolLaws::extends_trans))]
    pub fn intern(&mut self, t: &SigType) -> Result<SigId, NoMemory>
        ensures ok { IfOk result (λ id. Has self.new id t.now) }
        ensures extends { Extends self.old self.new }
        ensures bound { length self.new ≤ length self.old + nodes t.now }
    {
        match t {
            SigType::Prim(prim) => self.place(&Shape::Prim(*prim)),
            SigType::Class(name) => self.place(&Shape::Class(name)),
            SigType::Value(name) => self.place(&Shape::Value(name)),
            SigType::Inst { value, name, args } => {
                let args = self.intern_all(args.get().as_slice())?;
                self.place(&Shape::Inst {
                    value: *value,
                    name: name.get(),
                    args: &args,
                })
            }
            SigType::Var(number) => self.place(&Shape::Var(*number)),
            SigType::MVar(number) => self.place(&Shape::MVar(*number)),
            SigType::SzArray(of) => {
                let of = self.intern(of.get())?;
                self.place(&Shape::SzArray(of))
            }
            SigType::Array {
                of,
                rank,
                sizes,
                lower,
            } => {
                let of = self.intern(of.get())?;
                self.place(&Shape::Array {
                    of,
                    rank: *rank,
                    sizes: sizes.get(),
                    lower: lower.get(),
                })
            }
            SigType::ByRef(of) => {
                let of = self.intern(of.get())?;
                self.place(&Shape::ByRef(of))
            }
            SigType::Pointer(of) => {
                let of = self.intern(of.get())?;
                self.place(&Shape::Pointer(of))
            }
            SigType::Mod { required, by, of } => {
                let of = self.intern(of.get())?;
                self.intern_modified(*required, by.get(), of)
            }
            SigType::Pinned(of) => {
                let of = self.intern(of.get())?;
                self.place(&Shape::Pinned(of))
            }
        }
    }

    /// The id of the type of `of` with a modifier.
    #[cycle(intern)]
    #[tactic(auto, using(crate::proofs::PoolLaws::extends_trans))]
    fn intern_modified(&mut self, required: bool, by: &Owner, of: SigId) -> Result<SigId, NoMemory>
        requires { of < length self.old }
        ensures ok { IfOk result (λ id. Has self.new id (Mod required by.now (term_of self.old of))) }
        ensures extends { Extends self.old self.new }
        ensures bound { length self.new ≤ length self.old + (owner_nodes by.now + 1) }
    {
        match by {
            Owner::Name(name) => self.place(&Shape::ModName {
                required,
                by: name,
                of,
            }),
            Owner::Spec(inner) => {
                let inner = self.intern(inner)?;
                self.place(&Shape::ModSpec {
                    required,
                    by: inner,
                    of,
                })
            }
        }
    }

    /// The ids of the types, in their order.
    #[cycle(intern)]
    fn intern_all(&mut self, types: &[SigType]) -> Result<SigIds, NoMemory>
        ensures ok { IfOk result (λ ids. HasAll self.new ids types.now) }
        ensures extends { Extends self.old self.new }
        ensures bound { length self.new ≤ length self.old + list_nodes types.now }
    {
        let mut ids = Items::with_capacity(self.alloc, types.len())?;
        for t in types {
            let id = self.intern(t)?;
            ids.push(id)?;
        }
        Ok(ids)
    }

    /// The id of the node that `shape` describes, which the pool gets where it lacks it.
    pub(crate) fn place(&mut self, shape: &Shape<'_>) -> Result<SigId, NoMemory>
        requires { AllBelow (length self.old) (children (node_of shape.now)) }
        ensures ok { IfOk result (λ id. Has self.new id (built (terms self.old) (node_of shape.now))) }
        ensures extends { Extends self.old self.new }
        ensures bound { length self.new ≤ length self.old + 1 }
    {
        self.key.truncate(0);
        shape.write_key(&mut self.key)?;
        if let Some(place) = self.keys.find(self.key.as_slice()) {
            return Ok(SigId::new(place));
        }
        let node = shape.owned(self.alloc)?;
        let place = self.nodes.len();
        self.nodes.push(node)?;
        match self.keys.push(self.alloc, self.key.as_slice()) {
            Ok(()) => Ok(SigId::new(place)),
            Err(error) => {
                self.nodes.truncate(place);
                Err(error)
            }
        }
    }
}

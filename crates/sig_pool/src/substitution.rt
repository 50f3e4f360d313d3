ghost use Rattle.std.specs.Prelude.{◌≡◌, ◌⊎◌, ℕ, ◌+◌, ◌<◌, ◌≤◌, false, cond, nat_eq, [], ◌∷◌, length, map, get_or, Some, None, IsSome, IfSome, IfNone, IfOk, OnOk};
ghost use Rattle.indexmap.specs.IndexMap.{get, index_map_len};
ghost use Rattle.sig_pool.specs.Pool.{IsPool, Extends, Has, HasAll};
ghost use Rattle.sig_pool.specs.Reached.{GrowsByReached};
ghost use Rattle.sig_pool.specs.Replaced.{replaced, terms_at};
ghost use Rattle.sig_pool.specs.Terms.{children, AllBelow, built, terms, term_of};
ghost use Rattle.sig_pool.specs.Visits.{node_at, is_leaf, with_children, IsDone, Visits};

use crate::shape::Shape;
use crate::{Node, NodeOwner, SigId, SigIds, SigPool};
use il_lists::{Copies, Items, NoMemory, two};
use indexmap::IndexMap;

impl SigPool {
    /// The id of the type of `id` with each `!n` and `!!n` within the lists replaced by the type there
    /// (ECMA-335 II.9.2). Each id that was given keeps its type, after a refusal for want of memory too.
    ///
    /// Each distinct id is visited once, so the pool grows by at most the number of distinct ids that can
    /// be reached from `id`. It goes as deep as the type is.
    pub fn substitute(
        &mut self,
        id: SigId,
        class_args: &SigIds,
        method_args: &SigIds,
    ) -> Result<SigId, NoMemory>
        requires id { id < length self.old }
        requires class_args { AllBelow (length self.old) class_args.now }
        requires method_args { AllBelow (length self.old) method_args.now }
        ensures ok { IfOk result (λ r. Has self.new r (replaced (terms_at self.old class_args.now) (terms_at self.old method_args.now) (term_of self.old id))) }
        ensures extends { Extends self.old self.new }
        ensures bound { GrowsByReached self.old self.new id }
    {
        let _ = self.len();
        let mut done = IndexMap::new(self.alloc());
        let result = self.replace(id, class_args, method_args, &mut done);
        let _ = done.len();
        result
    }

    #[cycle(replace)]
    fn replace(
        &mut self,
        id: SigId,
        classes: &SigIds,
        methods: &SigIds,
        done: &mut IndexMap<usize, usize>,
    ) -> Result<SigId, NoMemory>
        requires id { id < length self.old }
        requires classes { AllBelow (length self.old) classes.now }
        requires methods { AllBelow (length self.old) methods.now }
        requires pool { IsPool self.old }
        requires done { IsDone self.old classes.now methods.now (get nat_eq done.old) }
        ensures ok { IfOk result (λ r. Has self.new r (replaced (terms_at self.old classes.now) (terms_at self.old methods.now) (term_of self.old id))) }
        ensures pool { IsPool self.new }
        ensures extends { Extends self.old self.new }
        ensures done { OnOk result (IsDone self.new classes.now methods.now (get nat_eq done.new)) }
        ensures visits { Visits self.old self.new (id ∷ []) (get nat_eq done.old) (get nat_eq done.new) (index_map_len done.old) (index_map_len done.new) }
    {
        if let Some(place) = done.get(&id.place()) {
            return Ok(SigId::new(*place));
        }
        if let Some(leaf) = self.replaced_leaf(id, classes, methods) {
            return Ok(leaf);
        }
        let kids = self.kids(id)?;
        let kids = self.replace_all(kids.as_slice(), classes, methods, done)?;
        self.rebuild(id, &kids, done)
    }

    #[cycle(replace)]
    fn replace_all(
        &mut self,
        ids: &[SigId],
        classes: &SigIds,
        methods: &SigIds,
        done: &mut IndexMap<usize, usize>,
    ) -> Result<SigIds, NoMemory>
        requires ids { AllBelow (length self.old) ids.now }
        requires classes { AllBelow (length self.old) classes.now }
        requires methods { AllBelow (length self.old) methods.now }
        requires pool { IsPool self.old }
        requires done { IsDone self.old classes.now methods.now (get nat_eq done.old) }
        ensures ok { IfOk result (λ rs. HasAll self.new rs (map (replaced (terms_at self.old classes.now) (terms_at self.old methods.now)) (terms_at self.old ids.now))) }
        ensures pool { IsPool self.new }
        ensures extends { Extends self.old self.new }
        ensures done { OnOk result (IsDone self.new classes.now methods.now (get nat_eq done.new)) }
        ensures visits { Visits self.old self.new ids.now (get nat_eq done.old) (get nat_eq done.new) (index_map_len done.old) (index_map_len done.new) }
    {
        let mut replaced = Items::with_capacity(self.alloc(), ids.len())?;
        for id in ids {
            let id = self.replace(*id, classes, methods, done)?;
            replaced.push(id)?;
        }
        Ok(replaced)
    }

    /// What replaces the node of `id`, where it has no children.
    #[tactic(auto, using(crate::proofs::Replacing::leaf_Prim, crate::proofs::Replacing::leaf_Class, crate::proofs::Replacing::leaf_Value))]
    fn replaced_leaf(&self, id: SigId, classes: &SigIds, methods: &SigIds) -> Option<SigId>
        requires id { id < length self.now }
        requires classes { AllBelow (length self.now) classes.now }
        requires methods { AllBelow (length self.now) methods.now }
        requires pool { IsPool self.now }
        ensures some { IfSome result (λ r. Has self.now r (replaced (terms_at self.now classes.now) (terms_at self.now methods.now) (term_of self.now id))) }
        ensures none { IfNone result (is_leaf (node_at self.now id) ≡ false) }
    {
        match self.node(id) {
            Node::Prim(_) => Some(id),
            Node::Class(_) => Some(id),
            Node::Value(_) => Some(id),
            Node::Var(number) => Some(chosen(classes, *number, id)),
            Node::MVar(number) => Some(chosen(methods, *number, id)),
            Node::Inst { .. } => None,
            Node::SzArray(_) => None,
            Node::Array { .. } => None,
            Node::ByRef(_) => None,
            Node::Pointer(_) => None,
            Node::Mod { .. } => None,
            Node::Pinned(_) => None,
        }
    }

    /// The children of the node of `id`.
    fn kids(&self, id: SigId) -> Result<SigIds, NoMemory>
        requires { id < length self.now }
        ensures { IfOk result (λ ks. ks ≡ children (node_at self.now id)) }
    {
        match self.node(id) {
            Node::Prim(_) | Node::Class(_) | Node::Value(_) | Node::Var(_) | Node::MVar(_) => {
                Ok(Items::new(self.alloc()))
            }
            Node::Inst { args, .. } => Items::from_slice(self.alloc(), args.as_slice()),
            Node::SzArray(of)
            | Node::ByRef(of)
            | Node::Pointer(of)
            | Node::Pinned(of)
            | Node::Array { of, .. } => Items::from_slice(self.alloc(), &[*of]),
            Node::Mod { by, of, .. } => match by {
                NodeOwner::Name(_) => Items::from_slice(self.alloc(), &[*of]),
                NodeOwner::Spec(by) => Items::from_slice(self.alloc(), &[*of, *by]),
            },
        }
    }

    /// A copy of the node of `id`, with `kids` in the place of its children.
    fn with_kids(&self, id: SigId, kids: &SigIds) -> Result<Node, NoMemory>
        requires id { id < length self.now }
        requires count { length kids.now ≡ length (children (node_at self.now id)) }
        ensures { IfOk result (λ n. n ≡ with_children (node_at self.now id) kids.now) }
    {
        let alloc = self.alloc();
        match self.node(id) {
            Node::Prim(prim) => Ok(Node::Prim(*prim)),
            Node::Class(name) => {
                let name = name.copy(alloc)?;
                Ok(Node::Class(name))
            }
            Node::Value(name) => {
                let name = name.copy(alloc)?;
                Ok(Node::Value(name))
            }
            Node::Inst { value, name, .. } => {
                let (name, args) = two(name, kids, alloc)?;
                Ok(Node::Inst {
                    value: *value,
                    name,
                    args,
                })
            }
            Node::Var(number) => Ok(Node::Var(*number)),
            Node::MVar(number) => Ok(Node::MVar(*number)),
            Node::SzArray(_) => Ok(Node::SzArray(*kids.at(0))),
            Node::Array {
                rank,
                sizes,
                lower,
                ..
            } => {
                let (sizes, lower) = two(sizes, lower, alloc)?;
                Ok(Node::Array {
                    of: *kids.at(0),
                    rank: *rank,
                    sizes,
                    lower,
                })
            }
            Node::ByRef(_) => Ok(Node::ByRef(*kids.at(0))),
            Node::Pointer(_) => Ok(Node::Pointer(*kids.at(0))),
            Node::Mod { required, by, .. } => {
                let by = match by {
                    NodeOwner::Name(name) => {
                        let name = name.copy(alloc)?;
                        NodeOwner::Name(name)
                    }
                    NodeOwner::Spec(_) => NodeOwner::Spec(*kids.at(1)),
                };
                Ok(Node::Mod {
                    required: *required,
                    by,
                    of: *kids.at(0),
                })
            }
            Node::Pinned(_) => Ok(Node::Pinned(*kids.at(0))),
        }
    }

    /// The id of the node of `id` with `kids` in the place of its children, which `done` notes.
    fn rebuild(
        &mut self,
        id: SigId,
        kids: &SigIds,
        done: &mut IndexMap<usize, usize>,
    ) -> Result<SigId, NoMemory>
        requires id { id < length self.old }
        requires kids { AllBelow (length self.old) kids.now }
        requires count { length kids.now ≡ length (children (node_at self.old id)) }
        requires absent { get nat_eq done.old id ≡ None }
        ensures ok { IfOk result (λ r. Has self.new r (built (terms self.old) (with_children (node_at self.old id) kids.now))) }
        ensures pool { IsPool self.new }
        ensures extends { Extends self.old self.new }
        ensures known { IfOk result (λ r. (k : ℕ) → get nat_eq done.new k ≡ cond (nat_eq id k) (Some r) (get nat_eq done.old k)) }
        ensures keys { (k : ℕ) → IsSome (get nat_eq done.new k) → IsSome (get nat_eq done.old k) ⊎ (k ≡ id) }
        ensures growth { length self.new + index_map_len done.old ≤ length self.old + index_map_len done.new }
    {
        let _ = self.len();
        done.insert(id.place(), id.place())?;
        let placed = self.put(id, kids);
        let _ = self.len();
        let replaced = placed?;
        done.insert(id.place(), replaced.place())?;
        Ok(replaced)
    }

    /// The id of the node of `id` with `kids` in the place of its children. The node lives here alone, across no early end
    /// of another call.
    fn put(&mut self, id: SigId, kids: &SigIds) -> Result<SigId, NoMemory>
        requires id { id < length self.old }
        requires kids { AllBelow (length self.old) kids.now }
        requires count { length kids.now ≡ length (children (node_at self.old id)) }
        ensures ok { IfOk result (λ r. Has self.new r (built (terms self.old) (with_children (node_at self.old id) kids.now))) }
        ensures extends { Extends self.old self.new }
        ensures bound { length self.new ≤ length self.old + 1 }
    {
        let node = self.with_kids(id, kids)?;
        self.place(&Shape::of(&node))
    }
}

/// The argument of this number, or else `id`.
fn chosen(args: &SigIds, number: u32, id: SigId) -> SigId
    ensures { result ≡ get_or args.now number id }
{
    match args.get(number as usize) {
        Some(arg) => *arg,
        None => id,
    }
}

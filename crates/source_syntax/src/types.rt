//! Types as they are written, and the terms that they stand for (ECMA-335 II.7.1, II.14.2, II.23.2.12).

ghost use Rattle.std.specs.Prelude.{◌≡◌, ◌<◌, ◌^◌, IfOk, length, true};
ghost use Rattle.type_terms.specs.declared.term.SigType.{SigType, Mod};
ghost use Rattle.source_model.specs.Forest.{Forest, preorder};
ghost use Rattle.source_model.specs.Nodes.{Around};
ghost use Rattle.source_model.specs.Source.{Source};
ghost use Rattle.source_model.specs.Types.{suffixed, the_owner, the_type, type_of, types_in};
ghost use Rattle.source_syntax.specs.Places.{IsAt, IsReadable};
ghost use Rattle.source_syntax.specs.Sound.{IsTypeOrNothing};
ghost use Rattle.source_syntax.specs.Suffixes.{IsSoundAt, is_suffix, suffix_at};
ghost use Rattle.source_nodes.specs.Walk.{IsForest};

use crate::bases::word_type;
use crate::place::{Place, module_name};
use il_base::{Boxed, Items, NoMemory};
use ilasm_grammar::TreeNode;
use ilasm_grammar::productions::{
    SPEC_TYPE, SPEC_TYPE_NAME, TYPE, TYPE_SUFFIX_AMPERSAND, TYPE_SUFFIX_BRACKET,
    TYPE_SUFFIX_MODOPT, TYPE_SUFFIX_MODREQ, TYPE_SUFFIX_PINNED, TYPE_SUFFIX_STAR,
};
use source_model::forests_join;
use source_nodes::walk::{is_of, open};
use std::alloc::Global;
use type_terms::{Owner, Prim, SigType, Types};

impl<'a> Place<'a> {
    /// The types that stand in a forest, and none that stands within another.
    #[cycle(types)]
    pub fn types_in(&self, alloc: Global, nodes: &[TreeNode]) -> Result<Types, NoMemory>
        requires { IsForest nodes.now }
        ensures { (s : Source) (a : Around) → IsAt self.now s a → (f : Forest) → preorder f ≡ nodes.now → IsReadable s f →
            IfOk result (λ types. types ≡ types_in s a f) }
    {
        forests_join();
        let mut types = Items::new(alloc);
        let mut left = nodes;
        while let Some(x) = open(left) {
            if is_of(x.node, TYPE) {
                let of = self.type_of(alloc, x.below)?;
                types.push(of)?;
                left = x.after;
            } else {
                left = x.behind;
            }
        }
        Ok(types)
    }

    /// A type, from what stands below its production: its base with its suffixes.
    #[cycle(types)]
    pub fn type_of(&self, alloc: Global, nodes: &[TreeNode]) -> Result<SigType, NoMemory>
        requires { IsForest nodes.now }
        ensures { (s : Source) (a : Around) → IsAt self.now s a → (f : Forest) → preorder f ≡ nodes.now → IsTypeOrNothing s f → IsReadable s f →
            IfOk result (λ of. of ≡ type_of s a f) }
    {
        let Some(x) = open(nodes) else {
            return Ok(SigType::Prim(Prim::Void));
        };
        let TreeNode::Branch { production, .. } = x.node else {
            return Ok(SigType::Prim(Prim::Void));
        };
        if let Some(prim) = word_type(production) {
            return self.suffixed(alloc, x.after, SigType::Prim(prim));
        }
        let args = self.types_in(alloc, x.below)?;
        let base = self.base_type(alloc, production, x.below, args)?;
        self.suffixed(alloc, x.after, base)
    }

    /// A type with the suffixes that stand in a forest, each around what stands before it.
    #[cycle(types)]
    fn suffixed(
        &self,
        alloc: Global,
        nodes: &[TreeNode],
        base: SigType,
    ) -> Result<SigType, NoMemory>
        requires { IsForest nodes.now }
        ensures { (s : Source) (a : Around) → IsAt self.now s a → (f : Forest) → preorder f ≡ nodes.now → IsReadable s f →
            IfOk result (λ of. of ≡ suffixed s a f base) }
    {
        forests_join();
        let mut of = base;
        let mut left = nodes;
        while let Some(x) = open(left) {
            if is_suffix(x.node) {
                of = self.with_suffix(alloc, x.node, x.below, of)?;
                left = x.after;
            } else {
                left = x.behind;
            }
        }
        Ok(of)
    }

    /// A type with a suffix around it.
    #[cycle(types)]
    #[inline(never)]
    fn with_suffix(
        &self,
        alloc: Global,
        node: TreeNode,
        nodes: &[TreeNode],
        of: SigType,
    ) -> Result<SigType, NoMemory>
        requires forest { IsForest nodes.now }
        requires few { length nodes.now < 2 ^ 32 }
        ensures { (s : Source) (a : Around) → IsAt self.now s a → (f : Forest) → preorder f ≡ nodes.now → is_suffix node ≡ true →
            IsSoundAt s node f → IsReadable s f →
            IfOk result (λ with. with ≡ suffix_at s a node f of) }
    {
        if is_of(node, TYPE_SUFFIX_MODREQ) {
            return self.modified(alloc, true, nodes, of);
        }
        if is_of(node, TYPE_SUFFIX_MODOPT) {
            return self.modified(alloc, false, nodes, of);
        }
        self.with_plain_suffix(alloc, node, nodes, of)
    }

    /// A type with a custom modifier, which is the first owner in a forest.
    #[cycle(types)]
    fn modified(
        &self,
        alloc: Global,
        required: bool,
        nodes: &[TreeNode],
        of: SigType,
    ) -> Result<SigType, NoMemory>
        requires { IsForest nodes.now }
        ensures { (s : Source) (a : Around) → IsAt self.now s a → (f : Forest) → preorder f ≡ nodes.now → IsReadable s f →
            IfOk result (λ with. with ≡ Mod required (the_owner s a f) of) }
    {
        let by = self.first_owner(alloc, nodes)?;
        let by = Boxed::new(alloc, by)?;
        let of = Boxed::new(alloc, of)?;
        Ok(SigType::Mod { required, by, of })
    }

    /// The first type in a forest.
    #[cycle(types)]
    pub fn first_type(&self, alloc: Global, nodes: &[TreeNode]) -> Result<SigType, NoMemory>
        requires { IsForest nodes.now }
        ensures { (s : Source) (a : Around) → IsAt self.now s a → (f : Forest) → preorder f ≡ nodes.now → IsReadable s f →
            IfOk result (λ of. of ≡ the_type s a f) }
    {
        forests_join();
        let mut left = nodes;
        while let Some(x) = open(left) {
            if is_of(x.node, TYPE) {
                return self.type_of(alloc, x.below);
            }
            left = x.behind;
        }
        Ok(SigType::Prim(Prim::Void))
    }

    /// The first owner in a forest: a name alone is a name, and any type a type.
    #[cycle(types)]
    pub fn first_owner(&self, alloc: Global, nodes: &[TreeNode]) -> Result<Owner, NoMemory>
        requires { IsForest nodes.now }
        ensures { (s : Source) (a : Around) → IsAt self.now s a → (f : Forest) → preorder f ≡ nodes.now → IsReadable s f →
            IfOk result (λ owner. owner ≡ the_owner s a f) }
    {
        forests_join();
        let mut left = nodes;
        while let Some(x) = open(left) {
            if is_of(x.node, SPEC_TYPE_NAME) {
                let name = self.type_name(alloc, x.below)?;
                return Ok(Owner::Name(name));
            }
            if is_of(x.node, SPEC_TYPE) {
                let of = self.first_type(alloc, x.below)?;
                return Ok(Owner::Spec(of));
            }
            left = x.behind;
        }
        let name = module_name(alloc)?;
        Ok(Owner::Name(name))
    }
}

/// Whether a node is a suffix of a type.
fn is_suffix(node: TreeNode) -> bool
    ensures { result ≡ is_suffix node }
{
    is_of(node, TYPE_SUFFIX_BRACKET)
        || is_of(node, TYPE_SUFFIX_AMPERSAND)
        || is_of(node, TYPE_SUFFIX_STAR)
        || is_of(node, TYPE_SUFFIX_PINNED)
        || is_of(node, TYPE_SUFFIX_MODREQ)
        || is_of(node, TYPE_SUFFIX_MODOPT)
}

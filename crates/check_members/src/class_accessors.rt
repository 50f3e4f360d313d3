//! The accessors of a property or an event, each of which is a method of its class (ECMA-335 II.17, II.18, II.22.28).

ghost use Rattle.std.specs.Prelude.{◌≡◌, ℕ, ◌<◌, ◌^◌, IfOk, length};
ghost use Rattle.ilasm_grammar.specs.declared.productions.TheConstants.{METHOD_REF};
ghost use Rattle.source_model.specs.Forest.{Forest, part, preorder, the};
ghost use Rattle.source_model.specs.Items.{members};
ghost use Rattle.source_model.specs.Members.{accessors_in, method_forests};
ghost use Rattle.source_model.specs.Nodes.{Around};
ghost use Rattle.source_model.specs.Source.{Source};
ghost use Rattle.source_model.specs.Undeclared.{accessor_undeclared_of};
ghost use Rattle.source_nodes.specs.Derived.{FitsBody, HasBodies};
ghost use Rattle.source_nodes.specs.Least.{least};
ghost use Rattle.source_nodes.specs.Readers.{Reads};
ghost use Rattle.source_nodes.specs.Walk.{IsForest};
ghost use Rattle.check_members.specs.MemberKinds.{is_chosen};
ghost use Rattle.check_members.specs.MemberReading.{Serves};
ghost use Rattle.check_members.specs.OwnMethods.{accessor_items, accessors_of, own_methods};
ghost use Rattle.check_visitor.specs.Surroundings.{HasParameters, IsSurrounding};

use crate::member_reading::Signatures;
use crate::member_sets::Members;
use check_visitor::asking::{Rule, Surrounding};
use il_base::NoMemory;
use ilasm_grammar::{TreeNode, productions};
use source_model::forests_join;
use source_nodes::least::sooner;
use source_nodes::reader::Reader;
use source_nodes::walk::{leaf_at, open, the};
use std::alloc::Global;
use type_terms::TypeId;

impl<'a, R: Rule> Signatures<'a, R> {
    /// The least accessor of a property or an event that is no method of its class.
    pub fn accessors(
        &self,
        alloc: Global,
        reader: &Reader,
        place: &Surrounding,
        path: &[TypeId],
        methods: &Members,
        nodes: &[TreeNode],
    ) -> Result<Option<u32>, NoMemory>
        requires { IsForest nodes.now }
        ensures { (s : Source) (a : Around) (f : Forest) → Serves (R.broken self.now.rule.now) self.now.scopes s → Reads reader.now s → IsSurrounding place.now a →
            HasParameters s place.now a → a.path ≡ path.now → methods.now ≡ own_methods s a → preorder f ≡ nodes.now → HasBodies s f →
            IfOk result (λ k. k ≡ least (accessors_of s a (accessors_in f))) }
    {
        forests_join();
        let mut left = nodes;
        let mut found = None;
        while let Some(x) = open(left) {
            if is_accessor(x.node) {
                let here = self.accessor(alloc, reader, place, path, methods, x.below)?;
                found = sooner(found, here);
                left = x.after;
            } else {
                left = x.behind;
            }
        }
        Ok(found)
    }

    // The directive of an accessor, where it is no method of its class.
    fn accessor(
        &self,
        alloc: Global,
        reader: &Reader,
        place: &Surrounding,
        path: &[TypeId],
        methods: &Members,
        below: &[TreeNode],
    ) -> Result<Option<u32>, NoMemory>
        requires forest { IsForest below.now }
        requires few { length below.now < 2 ^ 32 }
        ensures { (s : Source) (a : Around) (p : ℕ) (b : Forest) → Serves (R.broken self.now.rule.now) self.now.scopes s → Reads reader.now s → IsSurrounding place.now a →
            HasParameters s place.now a → a.path ≡ path.now → methods.now ≡ own_methods s a → preorder b ≡ below.now →
            FitsBody s METHOD_REF (the METHOD_REF b) → HasBodies s (the METHOD_REF b) →
            IfOk result (λ k. k ≡ least (accessor_undeclared_of s a (method_forests (members a.class)) (part p b))) }
    {
        let reference = the(below, productions::METHOD_REF);
        let unbroken = self.keeps_reference(alloc, reader, place, reference)?;
        if !unbroken {
            return Ok(None);
        }
        let own = self.is_own_method(alloc, reader, place, path, methods, reference)?;
        if own {
            return Ok(None);
        }
        Ok(Some(leaf_at(below, 0)))
    }
}

// Whether a node is an accessor.
fn is_accessor(node: TreeNode) -> bool
    ensures { result ≡ is_chosen accessor_items node }
{
    match node {
        TreeNode::Branch { production, .. } => matches!(
            production,
            productions::PROPERTY_ITEM_GET
                | productions::PROPERTY_ITEM_SET
                | productions::PROPERTY_ITEM_OTHER
                | productions::EVENT_ITEM_ADDON
                | productions::EVENT_ITEM_REMOVEON
                | productions::EVENT_ITEM_FIRE
                | productions::EVENT_ITEM_OTHER
        ),
        TreeNode::Leaf { .. } => false,
    }
}

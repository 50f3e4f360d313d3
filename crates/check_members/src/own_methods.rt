//! The methods of a class, and which references are to one of them (ECMA-335 II.10.2, II.22.28).

ghost use Rattle.std.specs.Prelude.{◌≡◌, ◌<◌, ◌^◌, IfOk, length, true};
ghost use Rattle.ilasm_grammar.specs.declared.productions.TheConstants.{METHOD, METHOD_REF};
ghost use Rattle.source_model.specs.Forest.{Forest, preorder, the};
ghost use Rattle.source_model.specs.Nodes.{Around};
ghost use Rattle.source_model.specs.Signatures.{is_reference_unbroken};
ghost use Rattle.source_model.specs.Source.{Source};
ghost use Rattle.source_nodes.specs.Derived.{FitsBody, HasBodies};
ghost use Rattle.source_nodes.specs.Readers.{Reads};
ghost use Rattle.source_nodes.specs.Walk.{IsForest};
ghost use Rattle.check_members.specs.MemberReading.{Serves};
ghost use Rattle.check_members.specs.OwnMethods.{is_own_method, own_methods, with_own_method};
ghost use Rattle.check_visitor.specs.Surroundings.{HasParameters, IsSurrounding};

use crate::member_kinds::{Kind, Level};
use crate::member_reading::Signatures;
use crate::member_sets::Members;
use check_visitor::asking::{Rule, Surrounding};
use il_base::NoMemory;
use ilasm_grammar::{TreeNode, productions};
use source_model::forests_join;
use source_nodes::reader::Reader;
use source_nodes::walk::{open, the};
use std::alloc::Global;
use type_terms::{TypeId, orders_are_total};

impl<'a, R: Rule> Signatures<'a, R> {
    /// The methods of a class whose signatures break no rule.
    pub fn methods_of(
        &self,
        alloc: Global,
        reader: &Reader,
        place: &Surrounding,
        class: &[TreeNode],
    ) -> Result<Members, NoMemory>
        requires { IsForest class.now }
        ensures { (s : Source) (a : Around) → Serves (R.broken self.now.rule.now) self.now.scopes s → Reads reader.now s → IsSurrounding place.now a →
            HasParameters s place.now a → preorder a.class ≡ class.now → HasBodies s a.class → IfOk result (λ methods. methods ≡ own_methods s a) }
    {
        forests_join();
        let mut methods = Members::new(alloc);
        let mut left = class;
        while let Some(x) = open(left) {
            if Level::Class.is_place(x.node) {
                if Kind::Method.is_declared_by(x.node) {
                    self.add_method(&mut methods, alloc, reader, place, x.below)?;
                    left = x.after;
                } else {
                    left = x.after;
                }
            } else {
                left = x.behind;
            }
        }
        Ok(methods)
    }

    // Adds the method that a declaration says, where its signature breaks no rule.
    fn add_method(
        &self,
        methods: &mut Members,
        alloc: Global,
        reader: &Reader,
        place: &Surrounding,
        below: &[TreeNode],
    ) -> Result<(), NoMemory>
        requires forest { IsForest below.now }
        requires few { length below.now < 2 ^ 32 }
        ensures { (s : Source) (a : Around) (b : Forest) → Serves (R.broken self.now.rule.now) self.now.scopes s → Reads reader.now s → IsSurrounding place.now a →
            HasParameters s place.now a → preorder b ≡ below.now → FitsBody s METHOD (the METHOD b) → HasBodies s (the METHOD b) →
            IfOk result (λ _. methods.new ≡ with_own_method s a (the METHOD b) methods.old) }
    {
        let own = the(below, productions::METHOD);
        match self.member(alloc, reader, place, Kind::Method, own)? {
            None => Ok(()),
            Some(method) => methods.push(method),
        }
    }

    /// Whether a reference whose signature breaks no rule is one to a method of the class.
    pub fn is_own_method(
        &self,
        alloc: Global,
        reader: &Reader,
        place: &Surrounding,
        path: &[TypeId],
        methods: &Members,
        reference: &[TreeNode],
    ) -> Result<bool, NoMemory>
        requires forest { IsForest reference.now }
        requires few { length reference.now < 2 ^ 32 }
        ensures { (s : Source) (a : Around) (f : Forest) → Serves (R.broken self.now.rule.now) self.now.scopes s → Reads reader.now s → HasParameters s place.now a →
            a.path ≡ path.now → methods.now ≡ own_methods s a → preorder f ≡ reference.now → FitsBody s METHOD_REF f → HasBodies s f →
            is_reference_unbroken s a f ≡ true → IfOk result (λ b. b ≡ is_own_method s a f) }
    {
        orders_are_total();
        let here = self.is_this_class(alloc, reader, place, path, reference)?;
        if !here {
            return Ok(false);
        }
        let member = self.referred(alloc, reader, place, reference)?;
        Ok(methods.has(&member))
    }
}

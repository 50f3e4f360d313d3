//! Members as they are declared, read where their signatures break no rule of their own (ECMA-335 II.15, II.16, II.17, II.18).

ghost use Rattle.std.specs.Prelude.{◌≡◌, ◌<◌, ◌^◌, IfOk, length, true};
ghost use Rattle.source_model.specs.Forest.{Forest, preorder};
ghost use Rattle.source_model.specs.Members.{in_method};
ghost use Rattle.source_model.specs.Nodes.{Around, typars};
ghost use Rattle.source_model.specs.Source.{Source};
ghost use Rattle.source_model.specs.TypeRules.{is_nothing, past_count};
ghost use Rattle.source_nodes.specs.Derived.{FitsBody, HasBodies};
ghost use Rattle.source_syntax.specs.Places.{IsAt};
ghost use Rattle.source_nodes.specs.Readers.{Reads};
ghost use Rattle.source_nodes.specs.Walk.{IsForest};
ghost use Rattle.check_members.specs.MemberKinds.{of_type, production_of, unbroken_member};
ghost use Rattle.check_members.specs.MemberReading.{Serves};
ghost use Rattle.check_visitor.specs.Surroundings.{HasParameters, IsSurrounding};
ghost use Rattle.check_members.specs.declared.member_kinds.Kind.TheVariants as kind;

use crate::member_kinds::Kind;
use crate::member_sets::Member;
use crate::unbroken::keeps;
use check_names::barred::not_in_property;
use check_names::named_types::Scopes;
use check_visitor::asking::{Rule, Surrounding, count_parameters};
use il_base::{Items, NoMemory};
use ilasm_grammar::TreeNode;
use source_nodes::reader::Reader;
use source_nodes::walk::leaf_at;
use source_syntax::declared::Declared;
use source_syntax::name_lists::typar_names;
use source_syntax::place::Place;
use source_syntax::references::method_name;
use source_syntax::unbroken::unbroken_signatures_are_sound;
use std::alloc::Global;
use type_terms::{MethodSig, Prim, SigType};

// How many generic parameters a method may have.
const MOST_TYPARS: usize = 65_535;

/// How members are read: the rule that no production of a signature may break, and the names of the source's assemblies.
#[derive(Drop)]
pub struct Signatures<'a, R> {
    pub rule: &'a R,
    pub scopes: Scopes<'a>,
}

impl<'a, R: Rule> Signatures<'a, R> {
    /// The member that a declaration says, where its signature breaks no rule.
    pub fn member(
        &self,
        alloc: Global,
        reader: &Reader,
        place: &Surrounding,
        kind: Kind,
        nodes: &[TreeNode],
    ) -> Result<Option<Member>, NoMemory>
        requires forest { IsForest nodes.now }
        requires few { length nodes.now < 2 ^ 32 }
        ensures { (s : Source) (a : Around) (f : Forest) → Serves (R.broken self.now.rule.now) self.now.scopes s → Reads reader.now s → IsSurrounding place.now a →
            HasParameters s place.now a → preorder f ≡ nodes.now → FitsBody s (production_of kind) f → HasBodies s f →
            IfOk result (λ m. m ≡ unbroken_member s a kind f) }
    {
        match kind {
            Kind::Field => self.field(alloc, reader, place, nodes),
            Kind::Method => self.method(alloc, reader, place, nodes),
            Kind::Property => self.property(alloc, reader, place, nodes),
            Kind::Event => event(alloc, reader, nodes),
        }
    }

    fn field(
        &self,
        alloc: Global,
        reader: &Reader,
        place: &Surrounding,
        nodes: &[TreeNode],
    ) -> Result<Option<Member>, NoMemory>
        requires { IsForest nodes.now }
        ensures { (s : Source) (a : Around) (f : Forest) → Serves (R.broken self.now.rule.now) self.now.scopes s → Reads reader.now s → IsSurrounding place.now a →
            HasParameters s place.now a → preorder f ≡ nodes.now → FitsBody s (production_of kind.Field) f → HasBodies s f →
            IfOk result (λ m. m ≡ unbroken_member s a kind.Field f) }
    {
        unbroken_signatures_are_sound();
        if !keeps(self.rule, alloc, reader, place, Kind::Field, nodes)? {
            return Ok(None);
        }
        let of = self.at(reader, place).top_type(alloc, nodes)?;
        let name = reader.name_text(alloc, leaf_at(nodes, 1))?;
        let sig = of_type(alloc, of);
        Ok(Some(Member { name, sig }))
    }

    fn method(
        &self,
        alloc: Global,
        reader: &Reader,
        place: &Surrounding,
        nodes: &[TreeNode],
    ) -> Result<Option<Member>, NoMemory>
        requires forest { IsForest nodes.now }
        requires few { length nodes.now < 2 ^ 32 }
        ensures { (s : Source) (a : Around) (f : Forest) → Serves (R.broken self.now.rule.now) self.now.scopes s → Reads reader.now s → IsSurrounding place.now a →
            HasParameters s place.now a → preorder f ≡ nodes.now → HasBodies s f →
            IfOk result (λ m. m ≡ unbroken_member s a kind.Method f) }
    {
        let typars = typar_names(alloc, reader, nodes)?;
        if typars.len() > MOST_TYPARS {
            return Ok(None);
        }
        let parameters = count_parameters(nodes);
        let inner = Surrounding {
            depth: place.depth,
            class: place.class,
            method: nodes,
            class_typars: place.class_typars,
            method_typars: &typars,
            parameters,
        };
        self.method_inside(alloc, reader, &inner, nodes)
    }

    // The same, with what stands around the parts of the method.
    fn method_inside(
        &self,
        alloc: Global,
        reader: &Reader,
        place: &Surrounding,
        nodes: &[TreeNode],
    ) -> Result<Option<Member>, NoMemory>
        requires forest { IsForest nodes.now }
        requires few { length nodes.now < 2 ^ 32 }
        ensures { (s : Source) (a : Around) (f : Forest) → Serves (R.broken self.now.rule.now) self.now.scopes s → Reads reader.now s → IsSurrounding place.now (in_method a f) →
            HasParameters s place.now (in_method a f) → preorder f ≡ nodes.now → HasBodies s f → is_nothing (past_count (typars f)) ≡ true →
            IfOk result (λ m. m ≡ unbroken_member s a kind.Method f) }
    {
        unbroken_signatures_are_sound();
        if !keeps(self.rule, alloc, reader, place, Kind::Method, nodes)? {
            return Ok(None);
        }
        let sig = self.at(reader, place).method_signature(alloc, nodes)?;
        let name = method_name(alloc, reader, nodes)?;
        Ok(Some(Member { name, sig }))
    }

    fn property(
        &self,
        alloc: Global,
        reader: &Reader,
        place: &Surrounding,
        nodes: &[TreeNode],
    ) -> Result<Option<Member>, NoMemory>
        requires { IsForest nodes.now }
        ensures { (s : Source) (a : Around) (f : Forest) → Serves (R.broken self.now.rule.now) self.now.scopes s → Reads reader.now s → IsSurrounding place.now a →
            HasParameters s place.now a → preorder f ≡ nodes.now → FitsBody s (production_of kind.Property) f → HasBodies s f →
            IfOk result (λ m. m ≡ unbroken_member s a kind.Property f) }
    {
        unbroken_signatures_are_sound();
        if not_in_property(nodes).is_some() {
            return Ok(None);
        }
        if !keeps(self.rule, alloc, reader, place, Kind::Property, nodes)? {
            return Ok(None);
        }
        let sig = self.at(reader, place).property_signature(alloc, nodes)?;
        let name = reader.name_text(alloc, leaf_at(nodes, 1))?;
        Ok(Some(Member { name, sig }))
    }

    /// The place of a signature, where its types are read.
    pub fn at<'b>(&'b self, reader: &Reader<'b>, place: &Surrounding<'_, 'b>) -> Place<'b>
        ensures { (s : Source) (a : Around) → Serves (R.broken self.now.rule.now) self.now.scopes s → Reads reader.now s → HasParameters s place.now a → IsAt result s a }
    {
        Place {
            reader: *reader,
            keys: self.scopes.keys,
            class: place.class_typars,
            method: place.method_typars,
        }
    }
}

// An event has its name alone.
fn event(alloc: Global, reader: &Reader, nodes: &[TreeNode]) -> Result<Option<Member>, NoMemory>
    requires { IsForest nodes.now }
    ensures { (s : Source) (a : Around) (f : Forest) → Reads reader.now s → preorder f ≡ nodes.now → FitsBody s (production_of kind.Event) f →
        IfOk result (λ m. m ≡ unbroken_member s a kind.Event f) }
{
    let name = reader.name_text(alloc, leaf_at(nodes, 1))?;
    let sig = of_type(alloc, SigType::Prim(Prim::Void));
    Ok(Some(Member { name, sig }))
}

// The signature that is a type alone.
fn of_type(alloc: Global, ret: SigType) -> MethodSig
    ensures { result ≡ of_type ret }
{
    MethodSig {
        has_this: false,
        explicit_this: false,
        vararg: false,
        generic: 0,
        ret,
        params: Items::new(alloc),
        sentinel: None,
    }
}

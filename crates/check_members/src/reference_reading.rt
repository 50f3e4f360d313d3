//! References to methods: whether their signatures break a rule of their own, what they name, and the type that they name it in
//! (ECMA-335 II.10.5, II.15.3, II.23.2.2).

ghost use Rattle.std.specs.Prelude.{◌≡◌, ◌<◌, ◌^◌, ◌∷◌, [], IfOk, List, Option, false, is_some, length, true};
ghost use Rattle.type_terms.specs.declared.name.Scope.{Scope};
ghost use Rattle.type_terms.specs.declared.term.Owner.{Name};
ghost use Rattle.ilasm_grammar.specs.declared.productions.TheConstants.{METHOD_GENERICS, METHOD_REF, TARGET_NAME, TARGET_SCOPE, TARGET_TYPE};
ghost use Rattle.source_model.specs.Forest.{Forest, branch, has, none, preorder, the};
ghost use Rattle.source_model.specs.Names.{is_path};
ghost use Rattle.source_model.specs.Nodes.{Around, Node};
ghost use Rattle.source_model.specs.References.{generic_number, owner_of, reference_name};
ghost use Rattle.source_model.specs.Signatures.{is_reference_unbroken};
ghost use Rattle.source_model.specs.Source.{Source};
ghost use Rattle.source_model.specs.TypeRules.{breaks_signature, is_nothing};
ghost use Rattle.source_model.specs.Undeclared.{has_known_scope, is_this_class};
ghost use Rattle.source_nodes.specs.Derived.{FitsBody, HasBodies};
ghost use Rattle.source_syntax.specs.Places.{IsAt, IsReadable};
ghost use Rattle.source_nodes.specs.Readers.{Reads};
ghost use Rattle.source_nodes.specs.Walk.{IsForest};
ghost use Rattle.check_names.specs.NamedTypes.{standing_of};
ghost use Rattle.check_members.specs.OwnMethods.{is_path_here, referred};
ghost use Rattle.check_members.specs.MemberReading.{Serves};
ghost use Rattle.check_visitor.specs.Surroundings.{HasParameters, IsSurrounding, found_in, is_scope};

use crate::member_kinds::Kind;
use crate::member_reading::Signatures;
use crate::member_sets::Member;
use crate::unbroken::keeps;
use check_names::barred::generic_arguments;
use check_names::named_types::Standing;
use check_visitor::asking::{Rule, Surrounding, first_in};
use il_base::{NoMemory, Text};
use ilasm_grammar::{TreeNode, productions};
use source_nodes::least::sooner;
use source_nodes::narrowing::word_of;
use source_nodes::reader::Reader;
use source_nodes::walk::{child, has, leaf_at, the};
use source_syntax::class_paths::is_id;
use source_syntax::place::Place;
use source_syntax::references::method_name;
use source_syntax::unbroken::unbroken_signatures_are_sound;
use std::alloc::Global;
use type_terms::{Scope, TypeId, TypeName};

impl<'a, R: Rule> Signatures<'a, R> {
    /// Whether the signature of a reference breaks no rule.
    pub fn keeps_reference(
        &self,
        alloc: Global,
        reader: &Reader,
        place: &Surrounding,
        nodes: &[TreeNode],
    ) -> Result<bool, NoMemory>
        requires { IsForest nodes.now }
        ensures { (s : Source) (a : Around) (f : Forest) → Serves (R.broken self.now.rule.now) self.now.scopes s → Reads reader.now s → IsSurrounding place.now a →
            HasParameters s place.now a → preorder f ≡ nodes.now → HasBodies s f → IfOk result (λ b. b ≡ is_reference_unbroken s a f) }
    {
        if generic_arguments(nodes).is_some() {
            return Ok(false);
        }
        let of = keeps(self.rule, alloc, reader, place, Kind::Field, nodes)?;
        if !of {
            return Ok(false);
        }
        let part = productions::METHOD_GENERICS;
        let generics = keeps_part(self.rule, alloc, reader, place, part, nodes)?;
        if !generics {
            return Ok(false);
        }
        let part = productions::SIGNATURE;
        let signature = keeps_part(self.rule, alloc, reader, place, part, nodes)?;
        Ok(signature)
    }

    /// What a reference names, where its signature breaks no rule.
    pub fn referred(
        &self,
        alloc: Global,
        reader: &Reader,
        place: &Surrounding,
        nodes: &[TreeNode],
    ) -> Result<Member, NoMemory>
        requires forest { IsForest nodes.now }
        requires few { length nodes.now < 2 ^ 32 }
        ensures { (s : Source) (a : Around) (f : Forest) → Serves (R.broken self.now.rule.now) self.now.scopes s → Reads reader.now s → HasParameters s place.now a →
            preorder f ≡ nodes.now → FitsBody s METHOD_REF f → HasBodies s f → is_reference_unbroken s a f ≡ true → IfOk result (λ m. m ≡ referred s a f) }
    {
        unbroken_signatures_are_sound();
        let at = self.at(reader, place);
        let generic = generic_number(&at, alloc, nodes)?;
        let sig = at.reference_signature(alloc, nodes, generic)?;
        let name = reference_name(alloc, reader, nodes)?;
        Ok(Member { name, sig })
    }

    /// Whether the owner of a reference is the class with this path: a name in brackets before it stands for an assembly, and it
    /// names that class.
    pub fn is_this_class(
        &self,
        alloc: Global,
        reader: &Reader,
        place: &Surrounding,
        path: &[TypeId],
        nodes: &[TreeNode],
    ) -> Result<bool, NoMemory>
        requires { IsForest nodes.now }
        ensures { (s : Source) (a : Around) (f : Forest) → Serves (R.broken self.now.rule.now) self.now.scopes s → Reads reader.now s → HasParameters s place.now a →
            preorder f ≡ nodes.now → FitsBody s METHOD_REF f → HasBodies s f → a.path ≡ path.now → IfOk result (λ b. b ≡ is_this_class s a f) }
    {
        if has(nodes, productions::TARGET_TYPE) {
            return Ok(false);
        }
        let known = self.knows_scope(alloc, reader, nodes)?;
        if !known {
            return Ok(false);
        }
        let name = type_named(&self.at(reader, place), alloc, nodes)?;
        Ok(is_here(&name, path))
    }

    // Whether the name in brackets before the owner of a reference, where there is one, stands for an assembly.
    fn knows_scope(
        &self,
        alloc: Global,
        reader: &Reader,
        nodes: &[TreeNode],
    ) -> Result<bool, NoMemory>
        requires { IsForest nodes.now }
        ensures { (s : Source) (f : Forest) → Serves (R.broken self.now.rule.now) self.now.scopes s → Reads reader.now s → preorder f ≡ nodes.now →
            FitsBody s METHOD_REF f → HasBodies s f → IfOk result (λ b. b ≡ has_known_scope s f) }
    {
        if !has(nodes, productions::TARGET_SCOPE) {
            return Ok(true);
        }
        let token = leaf_at(child(nodes, productions::TARGET_SCOPE), 0);
        let standing = self.scopes.written(alloc, reader, Some(token))?;
        Ok(is_assembly(standing))
    }
}

// Whether a name in brackets stands for an assembly.
fn is_assembly(standing: Standing) -> bool
    ensures { (known : Option Scope) → standing ≡ standing_of known → result ≡ is_some known }
{
    match standing {
        Standing::Here | Standing::Elsewhere => true,
        Standing::Nowhere => false,
    }
}

// Whether the first part with this production breaks no rule, nor what stands below it.
fn keeps_part<R: Rule>(
    rule: &R,
    alloc: Global,
    reader: &Reader,
    place: &Surrounding,
    production: u16,
    nodes: &[TreeNode],
) -> Result<bool, NoMemory>
    requires { IsForest nodes.now }
    ensures { (s : Source) (a : Around) (f : Forest) → Reads reader.now s → IsSurrounding place.now a → HasParameters s place.now a → preorder f ≡ nodes.now → HasBodies s f →
        is_scope production ≡ false → found_in (R.broken rule.now) s a (branch production none none) ≡ [] →
        IfOk result (λ b. b ≡ is_nothing (found_in (R.broken rule.now) s a (branch production (the production f) none))) }
{
    if !has(nodes, production) {
        return Ok(true);
    }
    let below = the(nodes, production);
    let own = rule.first(alloc, reader, place, production, below)?;
    let within = first_in(rule, alloc, reader, place, below)?;
    Ok(sooner(own, within).is_none())
}

// The number of generic arguments of a reference.
fn generic_number(at: &Place, alloc: Global, nodes: &[TreeNode]) -> Result<u32, NoMemory>
    requires forest { IsForest nodes.now }
    requires few { length nodes.now < 2 ^ 32 }
    ensures { (s : Source) (a : Around) (f : Forest) → IsAt at.now s a → preorder f ≡ nodes.now → IsReadable s (the METHOD_GENERICS f) →
        IfOk result (λ n. n ≡ generic_number s a f) }
{
    let written = the(nodes, productions::METHOD_GENERICS);
    if has(written, productions::GEN_ARGS_BRACKET) {
        let token = leaf_at(the(written, productions::GEN_ARGS_BRACKET), 1);
        return Ok(at.reader.natural(token));
    }
    let args = at.types_in(alloc, written)?;
    Ok(word_of(args.len()))
}

// The name of the method that a reference names.
fn reference_name(alloc: Global, reader: &Reader, nodes: &[TreeNode]) -> Result<Text, NoMemory>
    requires { IsForest nodes.now }
    ensures { (s : Source) (a : Around) (f : Forest) → Reads reader.now s → preorder f ≡ nodes.now → FitsBody s METHOD_REF f → HasBodies s f →
        IfOk result (λ name. name ≡ reference_name s a f) }
{
    if has(nodes, productions::TARGET_END) {
        return method_name(alloc, reader, the(nodes, productions::TARGET_END));
    }
    let name = leaf_at(child(nodes, productions::TARGET_NAME), 0);
    reader.name_text(alloc, name)
}

// The type that a reference names by its name; without one it is that of what stands outside of any class.
fn type_named(at: &Place, alloc: Global, nodes: &[TreeNode]) -> Result<TypeName, NoMemory>
    requires { IsForest nodes.now }
    ensures { (s : Source) (a : Around) (f : Forest) → IsAt at.now s a → preorder f ≡ nodes.now → FitsBody s METHOD_REF f → HasBodies s f → has TARGET_TYPE f ≡ false →
        IfOk result (λ name. Name name ≡ owner_of s a TARGET_SCOPE TARGET_TYPE TARGET_NAME f) }
{
    if has(nodes, productions::TARGET_SCOPE) {
        return at.name_with_scope(alloc, child(nodes, productions::TARGET_SCOPE));
    }
    let target = child(nodes, productions::TARGET_NAME);
    at.name_with_tail(
        alloc,
        target,
        productions::NAME_TAIL_SLASH,
        productions::NAME_TAIL_DOUBLE_COLON,
    )
}

// Whether a name is that of the class of this source with a path.
fn is_here(name: &TypeName, path: &[TypeId]) -> bool
    ensures { result ≡ is_path_here path.now name.now }
{
    match name.scope {
        Scope::Here => is_path(name.path.as_slice(), path),
        Scope::Extern(_) => false,
    }
}

// Whether two paths have the same names in order.
fn is_path(path: &[TypeId], other: &[TypeId]) -> bool
    ensures { result ≡ is_path path.now other.now }
{
    let mut rest = path;
    let mut other_rest = other;
    while let ([id, more @ ..], [other_id, other_more @ ..]) = (rest, other_rest) {
        if !is_id(id, other_id) {
            return false;
        }
        rest = more;
        other_rest = other_more;
    }
    rest.len() == 0 && other_rest.len() == 0
}

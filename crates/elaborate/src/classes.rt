//! The classes of a source, each with those that it nests (ECMA-335 II.10, II.22.32, II.22.37).

ghost use Rattle.std.specs.Prelude.{◌≡◌, ◌==◌, ◌<◌, ◌^◌, ◌∷◌, ◌++◌, [], IfOk, length, true};
ghost use Rattle.std.specs.List.{list_any};
ghost use Rattle.elaborate.specs.Bases.{is_outside};
ghost use Rattle.elaborate.specs.ClassParts.{inner, AreMembers, IsHead, IsKnown};
ghost use Rattle.elaborate.specs.WholeParts.{AllWhole};
ghost use Rattle.ilasm_grammar.specs.declared.productions.TheConstants.{CLASS, MEMBER_CLASS};
ghost use Rattle.source_flags.specs.InRange.{IsInRange};
ghost use Rattle.source_model.specs.Classes.{class_from, classes_in, core_scope};
ghost use Rattle.source_model.specs.Forest.{Forest, preorder};
ghost use Rattle.source_model.specs.Items.{members};
ghost use Rattle.source_model.specs.Nodes.{Around, typar_names};
ghost use Rattle.source_model.specs.Source.{Source};
ghost use Rattle.source_nodes.specs.Pieces.{ArePieces, AreParts};
ghost use Rattle.source_syntax.specs.Places.{IsAt};
ghost use Rattle.source_nodes.specs.Walk.{IsForest};

use crate::class_heads::{Head, read_head};
use crate::class_members::{Members, read_members};
use crate::gathering::gather_members;
use crate::member_reader::MemberReader;
use assembly_tree::{TypeDef, TypeDefs};
use il_base::{Items, NoMemory};
use ilasm_grammar::{TreeNode, productions};
use source_model::{derivations_are_forests, forests_join, forests_open};
use source_nodes::pieces::Piece;
use source_nodes::reader::Reader;
use source_nodes::walk::{child, next};
use source_syntax::declared::Declared;
use source_syntax::name_lists::typar_names;
use source_syntax::place::Place;
use std::alloc::Global;
use type_terms::Scope;

/// What is known wherever a class is read: the source, the keys of its assemblies, the names of no generic parameters, and where
/// `System.Object` stands.
#[derive(Clone, Copy)]
pub struct Known<'a> {
    pub reader: Reader<'a>,
    pub keys: &'a Declared,
    pub none: &'a Declared,
    pub core: Option<Scope>,
}

/// The classes of a forest that stands outside of all classes or in some, in order, each with those that it nests. Methods, in which
/// there are none, are gone past.
pub fn classes_in<R: MemberReader>(
    members: &R,
    alloc: Global,
    known: &Known,
    outside: bool,
    nodes: &[TreeNode],
) -> Result<TypeDefs, NoMemory>
    requires forest { IsForest nodes.now }
    requires few { length nodes.now < 2 ^ 32 }
    ensures { (s : Source) (a : Around) (f : Forest) → R.knows members.now s → IsKnown known.now s → outside ≡ is_outside a.path → preorder f ≡ nodes.now →
        AllWhole s f → IfOk result (λ all. all ≡ classes_in s a f) }
{
    derivations_are_forests();
    forests_open();
    forests_join();
    let mut all = room_for(alloc, outside, nodes.len())?;
    let mut found = Items::new(alloc);
    let mut left = nodes;
    while let Some((node, rest)) = next(left) {
        match node {
            TreeNode::Branch {
                production,
                nodes: count,
            } => {
                let (below, after) = rest.split_at(count as usize);
                if production == productions::CLASS {
                    gather_members(&mut found, below)?;
                    let own = found.as_slice();
                    if nests_some(own) {
                        let nested = classes_in(members, alloc, known, false, below)?;
                        push_class(&mut all, members, alloc, known, outside, below, own, nested)?;
                        left = after;
                    } else {
                        let none = Items::new(alloc);
                        push_class(&mut all, members, alloc, known, outside, below, own, none)?;
                        left = after;
                    }
                } else if production == productions::METHOD {
                    left = after;
                } else {
                    left = rest;
                }
            }
            TreeNode::Leaf { .. } => left = rest,
        }
    }
    Ok(all)
}

// No classes. Outside of all classes there is room for those of a large source, where a class takes some hundred nodes, so that
// they needn't be moved as they become more.
fn room_for(alloc: Global, outside: bool, nodes: usize) -> Result<TypeDefs, NoMemory>
    ensures { IfOk result (λ all. all ≡ []) }
{
    let count = if outside { nodes / 64 } else { 0 };
    let all = Items::with_capacity(alloc, count)?;
    Ok(all)
}

// Whether there is a class among the members of a class.
fn nests_some(found: &[Piece]) -> bool
    ensures { result ≡ list_any (λ x. x.production == MEMBER_CLASS) found.now }
{
    found
        .iter()
        .any(|x| x.production == productions::MEMBER_CLASS)
}

// Whether a class has no generic parameters, from what stands below its production.
fn has_no_typars(nodes: &[TreeNode]) -> bool
    requires { IsForest nodes.now }
    ensures { result ≡ true → (s : Source) (f : Forest) → preorder f ≡ nodes.now → typar_names s f ≡ [] }
{
    child(nodes, productions::TYPARS_OPT_SOME).is_empty()
}

// Adds a class with those that it nests, from what stands below its production and its members.
fn push_class<R: MemberReader>(
    all: &mut TypeDefs,
    reader: &R,
    alloc: Global,
    known: &Known,
    outside: bool,
    nodes: &[TreeNode],
    found: &[Piece],
    nested: TypeDefs,
) -> Result<(), NoMemory>
    requires forest { IsForest nodes.now }
    requires parts { AreParts nodes.now found.now }
    requires few { length nodes.now < 2 ^ 32 }
    ensures { (s : Source) (a : Around) (f : Forest) → R.knows reader.now s → IsKnown known.now s → outside ≡ is_outside a.path → preorder f ≡ nodes.now →
        ArePieces nodes.now found.now (members f) → IsInRange s CLASS f → AllWhole s f →
        IfOk result (λ _. all.new ≡ all.old ++ class_from s (inner s a f) f nested ∷ []) }
{
    if has_no_typars(nodes) {
        let place = Place {
            reader: known.reader,
            keys: known.keys,
            class: known.none,
            method: known.none,
        };
        push_class_at(
            all, reader, alloc, &place, outside, known.core, nodes, found, nested,
        )
    } else {
        push_generic(all, reader, alloc, known, outside, nodes, found, nested)
    }
}

// The same, where the class has generic parameters.
#[inline(never)]
fn push_generic<R: MemberReader>(
    all: &mut TypeDefs,
    reader: &R,
    alloc: Global,
    known: &Known,
    outside: bool,
    nodes: &[TreeNode],
    found: &[Piece],
    nested: TypeDefs,
) -> Result<(), NoMemory>
    requires forest { IsForest nodes.now }
    requires parts { AreParts nodes.now found.now }
    requires few { length nodes.now < 2 ^ 32 }
    ensures { (s : Source) (a : Around) (f : Forest) → R.knows reader.now s → IsKnown known.now s → outside ≡ is_outside a.path → preorder f ≡ nodes.now →
        ArePieces nodes.now found.now (members f) → IsInRange s CLASS f → AllWhole s f →
        IfOk result (λ _. all.new ≡ all.old ++ class_from s (inner s a f) f nested ∷ []) }
{
    let typars = typar_names(alloc, &known.reader, nodes)?;
    let place = Place {
        reader: known.reader,
        keys: known.keys,
        class: &typars,
        method: known.none,
    };
    push_class_at(
        all, reader, alloc, &place, outside, known.core, nodes, found, nested,
    )
}

// Adds the class that a place is in, which is made where it is added, since a class is large.
fn push_class_at<R: MemberReader>(
    all: &mut TypeDefs,
    reader: &R,
    alloc: Global,
    place: &Place,
    outside: bool,
    core: Option<Scope>,
    nodes: &[TreeNode],
    found: &[Piece],
    nested: TypeDefs,
) -> Result<(), NoMemory>
    requires forest { IsForest nodes.now }
    requires parts { AreParts nodes.now found.now }
    requires few { length nodes.now < 2 ^ 32 }
    ensures { (s : Source) (a : Around) (f : Forest) → R.knows reader.now s → IsAt place.now s (inner s a f) → outside ≡ is_outside a.path → core ≡ core_scope s →
        preorder f ≡ nodes.now → ArePieces nodes.now found.now (members f) → IsInRange s CLASS f → AllWhole s f →
        IfOk result (λ _. all.new ≡ all.old ++ class_from s (inner s a f) f nested ∷ []) }
{
    let head = read_head(alloc, place, outside, core, nodes, found)?;
    let own = read_members(reader, alloc, place, nodes, found)?;
    all.push(put_together(head, own, nested))
}

fn put_together(head: Head, own: Members, nested: TypeDefs) -> TypeDef
    ensures { (s : Source) (a : Around) (f : Forest) → IsHead s a f head → AreMembers s a f own → result ≡ class_from s a f nested }
{
    TypeDef {
        id: head.id,
        flags: head.flags,
        layout: head.layout,
        generics: own.generics,
        extends: head.extends,
        implements: head.implements,
        fields: own.fields,
        methods: own.methods,
        properties: own.accessed.properties,
        events: own.accessed.events,
        nested,
        attributes: own.attributes,
    }
}

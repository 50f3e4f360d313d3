//! The members of a class, with its generic parameters and its attributes (ECMA-335 II.10.2).

ghost use Rattle.std.specs.Prelude.{◌≡◌, ◌<◌, ◌^◌, IfOk, List, length};
ghost use Rattle.std.specs.List.{AllByRecursion, list_any};
ghost use Rattle.elaborate.specs.ClassParts.{AreAccessed, AreMembers, is_accessed};
ghost use Rattle.elaborate.specs.WholeParts.{AllWhole};
ghost use Rattle.source_flags.specs.InRange.{AllInRange};
ghost use Rattle.source_model.specs.Forest.{Forest, Part, preorder};
ghost use Rattle.source_model.specs.Items.{members, own_customs};
ghost use Rattle.source_model.specs.Manifests.{attributes};
ghost use Rattle.source_model.specs.Members.{methods};
ghost use Rattle.source_model.specs.Nodes.{Around};
ghost use Rattle.source_model.specs.Source.{Source};
ghost use Rattle.lower_manifest.specs.Runs.{is_custom};
ghost use Rattle.source_nodes.specs.Pieces.{ArePieces, AreParts};
ghost use Rattle.source_syntax.specs.Places.{IsAt};
ghost use Rattle.source_nodes.specs.Walk.{IsForest};

use crate::member_reader::MemberReader;
use assembly_tree::{Attributes, Events, Fields, Generics, Method, Methods, Properties};
use il_base::{Items, NoMemory};
use ilasm_grammar::TreeNode;
use ilasm_grammar::productions::{
    DECL_CUSTOM, ITEM_CUSTOM, MEMBER_CUSTOM, MEMBER_EVENT, MEMBER_PROPERTY,
};
use lower_manifest::attributes::attributes;
use lower_manifest::runs::own_customs;
use lower_members::events::events;
use lower_members::method_tables::MethodTable;
use lower_members::properties::properties;
use source_nodes::pieces::Piece;
use source_syntax::place::Place;
use std::alloc::Global;

/// The members of a class that have accessors.
#[derive(Drop)]
pub struct Accessed {
    pub properties: Properties,
    pub events: Events,
}

/// The members of a class, its generic parameters and its attributes.
#[derive(Drop)]
pub struct Members {
    pub generics: Generics,
    pub fields: Fields,
    pub methods: Methods,
    pub accessed: Accessed,
    pub attributes: Attributes,
}

/// The members of a class, from what stands below its production and where they stand.
pub fn read_members<R: MemberReader>(
    reader: &R,
    alloc: Global,
    place: &Place,
    nodes: &[TreeNode],
    found: &[Piece],
) -> Result<Members, NoMemory>
    requires forest { IsForest nodes.now }
    requires parts { AreParts nodes.now found.now }
    requires few { length nodes.now < 2 ^ 32 }
    ensures { (s : Source) (a : Around) → R.knows reader.now s → IsAt place.now s a → preorder a.class ≡ nodes.now → ArePieces nodes.now found.now (members a.class) →
        AllWhole s a.class → IfOk result (λ x. AreMembers s a a.class x) }
{
    let generics = reader.generics(alloc, place, nodes, found)?;
    let fields = reader.fields(alloc, place, nodes, found)?;
    let methods = reader.methods(alloc, place, nodes, found)?;
    let accessed = read_accessed(alloc, place, nodes, found, methods.as_slice())?;
    let attributes = own_attributes(alloc, place, nodes, found)?;
    Ok(Members {
        generics,
        fields,
        methods,
        accessed,
        attributes,
    })
}

// The properties and the events among the members of a class, with its methods.
fn read_accessed(
    alloc: Global,
    place: &Place,
    nodes: &[TreeNode],
    found: &[Piece],
    declared: &[Method],
) -> Result<Accessed, NoMemory>
    requires parts { AreParts nodes.now found.now }
    requires few { length nodes.now < 2 ^ 32 }
    ensures { (s : Source) (a : Around) → IsAt place.now s a → (f : Forest) → preorder f ≡ nodes.now → AllInRange s f → ArePieces nodes.now found.now (members f) →
        declared.now ≡ methods s a (members f) → IfOk result (λ x. AreAccessed s a f x) }
{
    if !has_accessed(found) {
        return Ok(Accessed {
            properties: Items::new(alloc),
            events: Items::new(alloc),
        });
    }
    let table = MethodTable::new(alloc, declared)?;
    let properties = properties(alloc, place, nodes, found, &table)?;
    let events = events(alloc, place, nodes, found, &table)?;
    Ok(Accessed { properties, events })
}

// Whether there is a property or an event among the members of a class.
fn has_accessed(found: &[Piece]) -> bool
    ensures { result ≡ list_any (λ x. is_accessed x.production) found.now }
{
    found.iter().any(|x| is_accessed(x.production))
}

fn is_accessed(production: u16) -> bool
    ensures { result ≡ is_accessed production }
{
    production == MEMBER_PROPERTY || production == MEMBER_EVENT
}

// Whether there is an attribute among the members of a class.
fn has_customs(found: &[Piece]) -> bool
    ensures { result ≡ list_any (λ x. is_custom x.production) found.now }
{
    found.iter().any(|x| is_custom(x.production))
}

fn is_custom(production: u16) -> bool
    ensures { result ≡ is_custom production }
{
    production == DECL_CUSTOM || production == MEMBER_CUSTOM || production == ITEM_CUSTOM
}

// The attributes of a class itself.
fn own_attributes(
    alloc: Global,
    place: &Place,
    nodes: &[TreeNode],
    found: &[Piece],
) -> Result<Attributes, NoMemory>
    requires parts { AreParts nodes.now found.now }
    requires few { length nodes.now < 2 ^ 32 }
    ensures { (s : Source) (a : Around) → IsAt place.now s a → (f : Forest) → AllInRange s f → ArePieces nodes.now found.now (members f) →
        IfOk result (λ all. all ≡ attributes s a (own_customs (members f))) }
{
    if !has_customs(found) {
        return Ok(Items::new(alloc));
    }
    let own = own_customs(alloc, found)?;
    attributes(alloc, place, nodes, own.as_slice())
}

//! Generic parameters (ECMA-335 II.10.1.7, II.22.20).

ghost use Rattle.std.specs.Prelude.{◌≡◌, ◌<◌, ◌^◌, ◌∷◌, ◌++◌, [], IfOk, List, length};
ghost use Rattle.std.specs.List.{AllByRecursion};
ghost use Rattle.ilasm_grammar.specs.declared.productions.TheConstants.{TYPAR};
ghost use Rattle.lower_members.specs.Generics.{generic_with};
ghost use Rattle.lower_members.specs.Ranged.{IsRangedItem};
ghost use Rattle.source_flags.specs.InRange.{AllInRange, IsInRange};
ghost use Rattle.source_model.specs.Forest.{Forest, Part, preorder};
ghost use Rattle.source_model.specs.Items.{runs};
ghost use Rattle.source_model.specs.Nodes.{Around, typar_names};
ghost use Rattle.source_model.specs.Parameters.{generics};
ghost use Rattle.source_model.specs.Source.{Source};
ghost use Rattle.source_nodes.specs.Derived.{HasBodies};
ghost use Rattle.source_nodes.specs.Pieces.{ArePieces, AreParts};
ghost use Rattle.source_syntax.specs.Places.{IsAt};
ghost use Rattle.source_nodes.specs.Readers.{Reads};
ghost use Rattle.source_nodes.specs.Walk.{IsForest};

use crate::line_attributes::line_attributes;
use assembly_tree::{Attributes, Generic, Generics};
use il_base::{Items, NoMemory};
use ilasm_grammar::TreeNode;
use ilasm_grammar::productions::{TYPAR, TYPAR_BOUNDS, TYPARS_OPT_SOME};
use source_flags::declared_flags::typar_flags;
use source_flags::gathering::{Kind, parts_of};
use source_nodes::pieces::{Piece, nodes_of};
use source_nodes::reader::Reader;
use source_nodes::walk::{child, leaf_at, the};
use source_syntax::declared::Declared;
use source_syntax::name_lists::typar_names;
use source_syntax::place::Place;
use std::alloc::Global;

/// The names of the generic parameters of a class or a method, from what stands below its production. Most have none.
pub fn written_names(
    alloc: Global,
    reader: &Reader,
    nodes: &[TreeNode],
) -> Result<Declared, NoMemory>
    requires { IsForest nodes.now }
    ensures { (s : Source) (f : Forest) → Reads reader.now s → preorder f ≡ nodes.now → HasBodies s f → IfOk result (λ names. names ≡ typar_names s f) }
{
    if child(nodes, TYPARS_OPT_SOME).is_empty() {
        return Ok(Declared::new(alloc));
    }
    typar_names(alloc, reader, nodes)
}

/// The generic parameters of a class or a method, from what stands below its production, their names, and its members or items.
pub fn generics(
    alloc: Global,
    place: &Place,
    names: &Declared,
    nodes: &[TreeNode],
    found: &[Piece],
) -> Result<Generics, NoMemory>
    requires forest { IsForest nodes.now }
    requires parts { AreParts nodes.now found.now }
    requires few { length nodes.now < 2 ^ 32 }
    ensures { (s : Source) (a : Around) → IsAt place.now s a → (f : Forest) (ps : List Part) → preorder f ≡ nodes.now → AllInRange s f →
        names.now ≡ typar_names s f → length names.now < 2 ^ 32 → ArePieces nodes.now found.now ps → AllByRecursion (IsRangedItem s) ps →
        IfOk result (λ all. all ≡ generics s a f (runs ps)) }
{
    if names.len() == 0 {
        return Ok(Items::new(alloc));
    }
    let mut given = line_attributes(alloc, place, names, nodes, found)?;
    let below = child(nodes, TYPARS_OPT_SOME);
    let typars = parts_of(alloc, below, Kind::One(TYPAR))?;
    let mut all = Items::new(alloc);
    for typar in typars.as_slice() {
        let customs = take_last(&mut given, alloc);
        let one = generic(alloc, place, nodes_of(below, *typar), customs)?;
        all.push(one)?;
    }
    Ok(all)
}

// The last of some lists of attributes.
fn take_last(given: &mut Vec<Attributes>, alloc: Global) -> Attributes
    ensures { 0 < length given.old.items → given.old.items ≡ given.new.items ++ result ∷ [] }
{
    match given.pop() {
        Some(customs) => customs,
        None => Items::new(alloc),
    }
}

// A generic parameter, from what stands below its production and its attributes.
fn generic(
    alloc: Global,
    place: &Place,
    below: &[TreeNode],
    customs: Attributes,
) -> Result<Generic, NoMemory>
    requires { IsForest below.now }
    ensures { (s : Source) (a : Around) → IsAt place.now s a → (f : Forest) → preorder f ≡ below.now → IsInRange s TYPAR f → AllInRange s f →
        IfOk result (λ g. g ≡ generic_with s a f customs) }
{
    let reader = &place.reader;
    let name = reader.name_text(alloc, leaf_at(below, 0))?;
    let bounds = place.owners_in(alloc, the(below, TYPAR_BOUNDS))?;
    Ok(Generic {
        name,
        flags: typar_flags(reader, below),
        bounds,
        attributes: customs,
    })
}

//! Properties (ECMA-335 II.17, II.22.34).

ghost use Rattle.std.specs.Prelude.{◌≡◌, ◌++◌, ◌<◌, ◌^◌, ◌∷◌, [], IfOk, List, length, map};
ghost use Rattle.std.specs.List.{AllByRecursion};
ghost use Rattle.ilasm_grammar.specs.declared.productions.TheConstants.{PROPERTY};
ghost use Rattle.param_lines.specs.Ranged.{IsRanged};
ghost use Rattle.lower_members.specs.SignedMethods.{declared};
ghost use Rattle.source_flags.specs.InRange.{AllInRange, IsInRange};
ghost use Rattle.source_model.specs.Constants.{constant_of};
ghost use Rattle.source_model.specs.Forest.{Forest, Part, preorder};
ghost use Rattle.source_model.specs.Members.{properties_in, property};
ghost use Rattle.source_model.specs.Nodes.{Around};
ghost use Rattle.source_model.specs.Source.{Source};
ghost use Rattle.source_nodes.specs.Pieces.{ArePieces, AreParts};
ghost use Rattle.source_syntax.specs.Places.{IsAt};
ghost use Rattle.source_nodes.specs.Walk.{IsForest};

use crate::accessors::accessors;
use crate::constants::constant_of;
use crate::item_customs::attributes_in;
use crate::method_tables::MethodTable;
use assembly_tree::{Constant, Properties, Property};
use il_base::{Items, NoMemory};
use ilasm_grammar::TreeNode;
use ilasm_grammar::productions::{MEMBER_PROPERTY, PROPERTY, PROPERTY_ITEM_CUSTOM};
use source_flags::declared_flags::property_flags;
use source_nodes::pieces::{Piece, nodes_of};
use source_nodes::walk::{leaf_at, the};
use source_syntax::place::Place;
use std::alloc::Global;

/// The properties among the members of a class, in order, with the methods of the class.
pub fn properties(
    alloc: Global,
    place: &Place,
    nodes: &[TreeNode],
    found: &[Piece],
    methods: &MethodTable,
) -> Result<Properties, NoMemory>
    requires parts { AreParts nodes.now found.now }
    requires few { length nodes.now < 2 ^ 32 }
    ensures { (s : Source) (a : Around) → IsAt place.now s a → (ps : List Part) (ms : List Forest) → ArePieces nodes.now found.now ps → AllByRecursion (IsRanged s) ps →
        methods.now ≡ map (declared s a) ms → length ms < 2 ^ 32 → IfOk result (λ all. all ≡ map (property s a ms) (properties_in ps)) }
{
    let mut all = Items::new(alloc);
    for piece in found {
        let below = nodes_of(nodes, *piece);
        add_property(&mut all, alloc, place, piece.production, below, methods)?;
    }
    Ok(all)
}

// Adds the property that a member is, where it is one.
fn add_property(
    all: &mut Properties,
    alloc: Global,
    place: &Place,
    production: u16,
    below: &[TreeNode],
    methods: &MethodTable,
) -> Result<(), NoMemory>
    requires forest { IsForest below.now }
    requires few { length below.now < 2 ^ 32 }
    ensures { (s : Source) (a : Around) → IsAt place.now s a → (p : Part) (ms : List Forest) → production ≡ p.production → preorder p.below ≡ below.now → IsRanged s p →
        methods.now ≡ map (declared s a) ms → length ms < 2 ^ 32 → IfOk result (λ _. all.new ≡ all.old ++ map (property s a ms) (properties_in (p ∷ []))) }
{
    if production == MEMBER_PROPERTY {
        let one = property(alloc, place, the(below, PROPERTY), methods)?;
        all.push(one)
    } else {
        Ok(())
    }
}

// A property, from what stands below its production and with the methods of its class.
fn property(
    alloc: Global,
    place: &Place,
    nodes: &[TreeNode],
    methods: &MethodTable,
) -> Result<Property, NoMemory>
    requires forest { IsForest nodes.now }
    requires few { length nodes.now < 2 ^ 32 }
    ensures { (s : Source) (a : Around) → IsAt place.now s a → (f : Forest) (ms : List Forest) → preorder f ≡ nodes.now → IsInRange s PROPERTY f → AllInRange s f →
        methods.now ≡ map (declared s a) ms → length ms < 2 ^ 32 → IfOk result (λ one. one ≡ property s a ms f) }
{
    let constant = constant_of(alloc, &place.reader, nodes)?;
    with_constant(alloc, place, nodes, methods, constant)
}

// The same, with its constant.
fn with_constant(
    alloc: Global,
    place: &Place,
    nodes: &[TreeNode],
    methods: &MethodTable,
    constant: Option<Constant>,
) -> Result<Property, NoMemory>
    requires forest { IsForest nodes.now }
    requires few { length nodes.now < 2 ^ 32 }
    ensures { (s : Source) (a : Around) → IsAt place.now s a → (f : Forest) (ms : List Forest) → preorder f ≡ nodes.now → IsInRange s PROPERTY f → AllInRange s f →
        methods.now ≡ map (declared s a) ms → length ms < 2 ^ 32 → constant ≡ constant_of s f → IfOk result (λ one. one ≡ property s a ms f) }
{
    let name = place.reader.name_text(alloc, leaf_at(nodes, 1))?;
    let sig = place.property_signature(alloc, nodes)?;
    let accessors = accessors(alloc, place, nodes, methods)?;
    let attributes = attributes_in(alloc, place, nodes, PROPERTY_ITEM_CUSTOM)?;
    Ok(Property {
        name,
        flags: property_flags(&place.reader, nodes),
        sig,
        constant,
        accessors,
        attributes,
    })
}

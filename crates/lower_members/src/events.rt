//! Events (ECMA-335 II.18, II.22.13).

ghost use Rattle.std.specs.Prelude.{◌≡◌, ◌++◌, ◌<◌, ◌^◌, ◌∷◌, [], IfOk, List, length, map};
ghost use Rattle.std.specs.List.{AllByRecursion};
ghost use Rattle.ilasm_grammar.specs.declared.productions.TheConstants.{EVENT};
ghost use Rattle.param_lines.specs.Ranged.{IsRanged};
ghost use Rattle.lower_members.specs.SignedMethods.{declared};
ghost use Rattle.source_flags.specs.InRange.{AllInRange, IsInRange};
ghost use Rattle.source_model.specs.Forest.{Forest, Part, preorder};
ghost use Rattle.source_model.specs.Members.{event, events_in};
ghost use Rattle.source_model.specs.Nodes.{Around};
ghost use Rattle.source_model.specs.Source.{Source};
ghost use Rattle.source_nodes.specs.Pieces.{ArePieces, AreParts};
ghost use Rattle.source_syntax.specs.Places.{IsAt};
ghost use Rattle.source_nodes.specs.Walk.{IsForest};

use crate::accessors::accessors;
use crate::item_customs::attributes_in;
use crate::method_tables::MethodTable;
use assembly_tree::{Event, Events};
use il_base::{Items, NoMemory};
use ilasm_grammar::TreeNode;
use ilasm_grammar::productions::{EVENT, EVENT_ITEM_CUSTOM, MEMBER_EVENT};
use source_flags::declared_flags::event_flags;
use source_nodes::pieces::{Piece, nodes_of};
use source_nodes::walk::{leaf_at, the};
use source_syntax::place::Place;
use std::alloc::Global;

/// The events among the members of a class, in order, with the methods of the class.
pub fn events(
    alloc: Global,
    place: &Place,
    nodes: &[TreeNode],
    found: &[Piece],
    methods: &MethodTable,
) -> Result<Events, NoMemory>
    requires parts { AreParts nodes.now found.now }
    requires few { length nodes.now < 2 ^ 32 }
    ensures { (s : Source) (a : Around) → IsAt place.now s a → (ps : List Part) (ms : List Forest) → ArePieces nodes.now found.now ps → AllByRecursion (IsRanged s) ps →
        methods.now ≡ map (declared s a) ms → length ms < 2 ^ 32 → IfOk result (λ all. all ≡ map (event s a ms) (events_in ps)) }
{
    let mut all = Items::new(alloc);
    for piece in found {
        let below = nodes_of(nodes, *piece);
        add_event(&mut all, alloc, place, piece.production, below, methods)?;
    }
    Ok(all)
}

// Adds the event that a member is, where it is one.
fn add_event(
    all: &mut Events,
    alloc: Global,
    place: &Place,
    production: u16,
    below: &[TreeNode],
    methods: &MethodTable,
) -> Result<(), NoMemory>
    requires forest { IsForest below.now }
    requires few { length below.now < 2 ^ 32 }
    ensures { (s : Source) (a : Around) → IsAt place.now s a → (p : Part) (ms : List Forest) → production ≡ p.production → preorder p.below ≡ below.now → IsRanged s p →
        methods.now ≡ map (declared s a) ms → length ms < 2 ^ 32 → IfOk result (λ _. all.new ≡ all.old ++ map (event s a ms) (events_in (p ∷ []))) }
{
    if production == MEMBER_EVENT {
        let one = event(alloc, place, the(below, EVENT), methods)?;
        all.push(one)
    } else {
        Ok(())
    }
}

// An event, from what stands below its production and with the methods of its class.
fn event(
    alloc: Global,
    place: &Place,
    nodes: &[TreeNode],
    methods: &MethodTable,
) -> Result<Event, NoMemory>
    requires forest { IsForest nodes.now }
    requires few { length nodes.now < 2 ^ 32 }
    ensures { (s : Source) (a : Around) → IsAt place.now s a → (f : Forest) (ms : List Forest) → preorder f ≡ nodes.now → IsInRange s EVENT f → AllInRange s f →
        methods.now ≡ map (declared s a) ms → length ms < 2 ^ 32 → IfOk result (λ one. one ≡ event s a ms f) }
{
    let name = place.reader.name_text(alloc, leaf_at(nodes, 1))?;
    let of = place.first_owner(alloc, nodes)?;
    let accessors = accessors(alloc, place, nodes, methods)?;
    let attributes = attributes_in(alloc, place, nodes, EVENT_ITEM_CUSTOM)?;
    Ok(Event {
        name,
        flags: event_flags(&place.reader, nodes),
        of,
        accessors,
        attributes,
    })
}

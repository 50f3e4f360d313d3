//! The accessors of properties and events (ECMA-335 II.17, II.18, II.22.28).

ghost use Rattle.std.specs.Prelude.{◌≡◌, ◌<◌, ◌^◌, ℕ, IfOk, List, Some, length, map, true};
ghost use Rattle.lower_members.specs.SignedMethods.{declared};
ghost use Rattle.source_flags.specs.InRange.{AllInRange, IsInRange};
ghost use Rattle.source_flags.specs.Lines.{productions_of};
ghost use Rattle.source_flags.specs.declared.gathering.Kind.TheVariants.{Accessors};
ghost use Rattle.source_model.specs.Forest.{Forest, Part, is_among, preorder};
ghost use Rattle.source_model.specs.Members.{accessor, accessor_kind, accessors_in, or_first};
ghost use Rattle.source_model.specs.Nodes.{Around};
ghost use Rattle.source_model.specs.Source.{Source};
ghost use Rattle.source_syntax.specs.Places.{IsAt};
ghost use Rattle.source_nodes.specs.Walk.{IsForest};

use crate::method_tables::MethodTable;
use assembly_tree::{Accessor, Accessors};
use il_base::{Items, NoMemory};
use ilasm_grammar::TreeNode;
use ilasm_grammar::productions::{
    EVENT_ITEM_ADDON, EVENT_ITEM_FIRE, EVENT_ITEM_REMOVEON, METHOD_REF, PROPERTY_ITEM_GET,
    PROPERTY_ITEM_SET,
};
use source_flags::gathering::{Kind, parts_of};
use source_nodes::narrowing::word_of;
use source_nodes::pieces::nodes_of;
use source_nodes::walk::the;
use source_syntax::place::Place;
use std::alloc::Global;

/// The accessors of a property or an event, in order, from what stands below its production and with the methods of its class.
pub fn accessors(
    alloc: Global,
    place: &Place,
    nodes: &[TreeNode],
    methods: &MethodTable,
) -> Result<Accessors, NoMemory>
    requires forest { IsForest nodes.now }
    requires few { length nodes.now < 2 ^ 32 }
    ensures { (s : Source) (a : Around) → IsAt place.now s a → (f : Forest) (ms : List Forest) → preorder f ≡ nodes.now → AllInRange s f →
        methods.now ≡ map (declared s a) ms → length ms < 2 ^ 32 → IfOk result (λ all. all ≡ map (accessor s a ms) (accessors_in f)) }
{
    let found = parts_of(alloc, nodes, Kind::Accessors)?;
    let mut all = Items::new(alloc);
    for piece in found.as_slice() {
        let below = nodes_of(nodes, *piece);
        let one = accessor(alloc, place, piece.production, below, methods)?;
        all.push(one)?;
    }
    Ok(all)
}

// An accessor: what it does, and the first method of the class that its reference means.
fn accessor(
    alloc: Global,
    place: &Place,
    production: u16,
    below: &[TreeNode],
    methods: &MethodTable,
) -> Result<Accessor, NoMemory>
    requires forest { IsForest below.now }
    requires few { length below.now < 2 ^ 32 }
    ensures { (s : Source) (a : Around) → IsAt place.now s a → (p : Part) (ms : List Forest) → production ≡ p.production → preorder p.below ≡ below.now →
        is_among (productions_of Accessors) p.production ≡ true → IsInRange s p.production p.below → AllInRange s p.below →
        methods.now ≡ map (declared s a) ms → length ms < 2 ^ 32 → IfOk result (λ one. one ≡ accessor s a ms p) }
{
    let reference = place.method_ref(alloc, the(below, METHOD_REF))?;
    let found = methods.find(reference.name.as_bytes(), &reference.sig);
    Ok(Accessor {
        kind: accessor_kind(production),
        method: or_first(found),
    })
}

// The number of the method that was found; 0 where none was.
fn or_first(found: Option<usize>) -> u32
    ensures { ((k : ℕ) → found ≡ Some k → k < 2 ^ 32) → result ≡ or_first found }
{
    match found {
        Some(k) => word_of(k),
        None => 0,
    }
}

// What a method does for its property or event (ECMA-335 II.23.1.12).
fn accessor_kind(production: u16) -> u16
    ensures { result ≡ accessor_kind production }
{
    if production == PROPERTY_ITEM_SET {
        return 1;
    }
    if production == PROPERTY_ITEM_GET {
        return 2;
    }
    if production == EVENT_ITEM_ADDON {
        return 8;
    }
    if production == EVENT_ITEM_REMOVEON {
        return 0x10;
    }
    if production == EVENT_ITEM_FIRE {
        return 0x20;
    }
    4
}

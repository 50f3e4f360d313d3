//! Whether members stand side by side of which two are of one kind: of others none is declared twice (ECMA-335 II.10.2).

ghost use Rattle.std.specs.Prelude.{◌≡◌, ◌≤◌, ◌||◌, ◌&&◌, List, None, false, true, length};
ghost use Rattle.type_terms.specs.declared.name.TypeId.{TypeId};
ghost use Rattle.source_model.specs.Forest.{Forest, preorder};
ghost use Rattle.source_model.specs.Items.{members};
ghost use Rattle.source_model.specs.Source.{Source};
ghost use Rattle.source_nodes.specs.Derived.{HasBodies};
ghost use Rattle.source_nodes.specs.Least.{least};
ghost use Rattle.source_nodes.specs.Walk.{IsForest};
ghost use Rattle.check_members.specs.LoneMembers.{is_met};
ghost use Rattle.check_members.specs.MemberKinds.{declarers, forests_of, is_chosen, parts_at, twice_within};
ghost use Rattle.check_members.specs.declared.member_kinds.Kind.{Kind as AnyKind};

use crate::member_kinds::{Kind, Level};
use ilasm_grammar::{TreeNode, productions};
use source_model::{forests_join, forests_open};
use source_nodes::walk::next;

/// Some of the kinds of members.
#[derive(Debug, Clone, Copy, PartialEq, Eq, Drop)]
pub struct Kinds {
    pub field: bool,
    pub method: bool,
    pub property: bool,
    pub event: bool,
}

/// Whether two members of one kind stand side by side.
pub fn has_two(level: Level, nodes: &[TreeNode]) -> bool
    requires { IsForest nodes.now }
    ensures { (f : Forest) → preorder f ≡ nodes.now → result ≡ false → (kind : AnyKind) → length (forests_of kind (parts_at level f)) ≤ 1 }
{
    forests_open();
    forests_join();
    let mut met = Kinds {
        field: false,
        method: false,
        property: false,
        event: false,
    };
    let mut left = nodes;
    while let Some((node, rest)) = next(left) {
        match node {
            TreeNode::Branch {
                production,
                nodes: count,
            } => {
                if level.has_place(production) {
                    let here = declared_by(node);
                    if have_common(met, here) {
                        return true;
                    }
                    met = all_of(met, here);
                    let (_, after) = rest.split_at(count as usize);
                    left = after;
                } else {
                    left = rest;
                }
            }
            TreeNode::Leaf { .. } => left = rest,
        }
    }
    false
}

/// Whether no two members of a class are of one kind, and none of them is a class.
pub fn are_lone(class: &[TreeNode]) -> bool
    requires { IsForest class.now }
    ensures members { (f : Forest) → preorder f ≡ class.now → result ≡ true → (kind : AnyKind) → length (forests_of kind (members f)) ≤ 1 }
    ensures classes { (s : Source) (path : List TypeId) (f : Forest) → preorder f ≡ class.now → HasBodies s f → result ≡ true → None ≡ least (twice_within s path f) }
{
    forests_open();
    forests_join();
    let mut met = Kinds {
        field: false,
        method: false,
        property: false,
        event: false,
    };
    let mut left = class;
    while let Some((node, rest)) = next(left) {
        match node {
            TreeNode::Branch {
                production,
                nodes: count,
            } => {
                if Level::Class.has_place(production) {
                    let here = declared_by(node);
                    if have_common(met, here) || production == productions::MEMBER_CLASS {
                        return false;
                    }
                    met = all_of(met, here);
                    let (_, after) = rest.split_at(count as usize);
                    left = after;
                } else {
                    if production == productions::CLASS {
                        return false;
                    }
                    left = rest;
                }
            }
            TreeNode::Leaf { .. } => left = rest,
        }
    }
    true
}

// The kind of the member that a node declares, where it declares one.
fn declared_by(node: TreeNode) -> Kinds
    ensures { (kind : AnyKind) → is_met result kind ≡ is_chosen (declarers kind) node }
{
    Kinds {
        field: Kind::Field.is_declared_by(node),
        method: Kind::Method.is_declared_by(node),
        property: Kind::Property.is_declared_by(node),
        event: Kind::Event.is_declared_by(node),
    }
}

// Whether one kind is among both.
fn have_common(some: Kinds, others: Kinds) -> bool
    ensures { result ≡ false → (kind : AnyKind) → (is_met some kind && is_met others kind) ≡ false }
{
    some.field && others.field
        || some.method && others.method
        || some.property && others.property
        || some.event && others.event
}

fn all_of(some: Kinds, others: Kinds) -> Kinds
    ensures { (kind : AnyKind) → is_met result kind ≡ (is_met some kind || is_met others kind) }
{
    Kinds {
        field: some.field || others.field,
        method: some.method || others.method,
        property: some.property || others.property,
        event: some.event || others.event,
    }
}

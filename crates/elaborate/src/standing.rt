//! Whether parts of two productions stand in a source outside of what holds neither data nor the sizes of classes.

ghost use Rattle.std.specs.Prelude.{◌≡◌, ◌||◌, ◌==◌, true};
ghost use Rattle.elaborate.specs.Standing.{HaveNeither, IsStanding, passed_forms};
ghost use Rattle.source_model.specs.Forest.{Forest, is_among, preorder};
ghost use Rattle.source_nodes.specs.Walk.{IsForest};

use ilasm_grammar::{TreeNode, productions};
use source_model::{derivations_are_forests, forests_join, forests_open};
use source_nodes::walk::next;

/// Of each of two productions, whether a part of it stands somewhere.
#[derive(Debug, Clone, Copy, PartialEq, Eq, Drop)]
pub struct Standing {
    pub first: bool,
    pub second: bool,
}

/// The same as `find_standing`, without a walk where it is known that no node has either production.
pub fn standing_of(nodes: &[TreeNode], first: u16, second: u16, none: bool) -> Standing
    requires forest { IsForest nodes.now }
    requires none { none ≡ true → HaveNeither first second nodes.now }
    ensures { (f : Forest) → preorder f ≡ nodes.now → IsStanding first second f result }
{
    if none {
        return Standing {
            first: false,
            second: false,
        };
    }
    find_standing(nodes, first, second)
}

/// Whether parts of these productions stand outside of the heads of classes, of methods and of the like, found in one walk.
fn find_standing(nodes: &[TreeNode], first: u16, second: u16) -> Standing
    requires { IsForest nodes.now }
    ensures { (f : Forest) → preorder f ≡ nodes.now → IsStanding first second f result }
{
    derivations_are_forests();
    forests_open();
    forests_join();
    let mut found = Standing {
        first: false,
        second: false,
    };
    let mut left = nodes;
    while let Some((node, rest)) = next(left) {
        match node {
            TreeNode::Branch {
                production,
                nodes: count,
            } => {
                found = with(found, production, first, second);
                if is_passed(production) {
                    let (_, after) = rest.split_at(count as usize);
                    left = after;
                } else {
                    left = rest;
                }
            }
            TreeNode::Leaf { .. } => left = rest,
        }
    }
    found
}

// What stands there, with a production.
fn with(found: Standing, production: u16, first: u16, second: u16) -> Standing
    ensures first_is { result.first ≡ (found.first || production == first) }
    ensures second_is { result.second ≡ (found.second || production == second) }
{
    Standing {
        first: found.first || production == first,
        second: found.second || production == second,
    }
}

// Whether a production is one that is gone past.
fn is_passed(production: u16) -> bool
    ensures { result ≡ is_among passed_forms production }
{
    matches!(
        production,
        productions::DECL_FIELD
            | productions::DECL_METHOD
            | productions::DECL_CUSTOM
            | productions::CLASS_ATTR_STAR_MORE
            | productions::TYPARS_OPT_SOME
            | productions::EXTENDS_OPT_SOME
            | productions::IMPLEMENTS_OPT_SOME
            | productions::MEMBER_FIELD
            | productions::MEMBER_METHOD
            | productions::MEMBER_PROPERTY
            | productions::MEMBER_EVENT
            | productions::MEMBER_CUSTOM
    )
}

//! The dimensions of arrays, by their tokens (ECMA-335 II.14.2).

ghost use Rattle.std.specs.Prelude.{◌≡◌, ◌++◌, ◌||◌, IfOk, map};
ghost use Rattle.ilasm_grammar.specs.declared.productions.TheConstants.{BOUND_ELLIPSIS, BOUND_INT, BOUND_OPT_NONE};
ghost use Rattle.source_model.specs.Forest.{Forest, part, preorder};
ghost use Rattle.source_model.specs.Shapes.{bound, bounds_in, dimensions, no_bound};
ghost use Rattle.source_nodes.specs.Dimensions.{bound_of};
ghost use Rattle.source_nodes.specs.Walk.{IsForest, is_of};

use crate::walk::{has, is_of, leaf_at, open, the};
use il_base::{Items, NoMemory};
use ilasm_grammar::TreeNode;
use ilasm_grammar::productions::{
    BOUND_ELLIPSIS, BOUND_END, BOUND_INT, BOUND_OPT_NONE, INT_OPT_SOME, SHAPE_COMMA,
};
use source_model::forests_join;
use std::alloc::Global;

/// The tokens of a dimension: that of its lower bound and that of its size, or of its upper bound where it has both.
#[derive(Debug, Clone, Copy, Drop)]
pub struct Dimension {
    pub lower: Option<u32>,
    pub size: Option<u32>,
}

/// The dimensions of a shape, from what stands below `[` and it.
pub fn dimensions(alloc: Global, nodes: &[TreeNode]) -> Result<Items<Dimension>, NoMemory>
    requires { IsForest nodes.now }
    ensures { IfOk result (λ found. (f : Forest) → preorder f ≡ nodes.now → map bound_of found ≡ dimensions f) }
{
    forests_join();
    let mut found = first_dimension(alloc, nodes)?;
    let mut left = nodes;
    while let Some(x) = open(left) {
        if is_of(x.node, BOUND_INT) {
            found.push(numbered(x.below))?;
            left = x.after;
        } else if is_unbounded(x.node) {
            found.push(unbounded())?;
            left = x.after;
        } else {
            left = x.behind;
        }
    }
    Ok(found)
}

// The dimension before a comma that begins the shape, where one does.
fn first_dimension(alloc: Global, nodes: &[TreeNode]) -> Result<Items<Dimension>, NoMemory>
    requires { IsForest nodes.now }
    ensures { IfOk result (λ found. (f : Forest) → preorder f ≡ nodes.now → map bound_of found ++ bounds_in f ≡ dimensions f) }
{
    let mut found = Items::new(alloc);
    if has(nodes, SHAPE_COMMA) {
        found.push(unbounded())?;
    }
    Ok(found)
}

// A dimension without bounds.
fn unbounded() -> Dimension
    ensures { bound_of result ≡ no_bound }
{
    Dimension {
        lower: None,
        size: None,
    }
}

// Whether a node is a bound that gives none.
fn is_unbounded(node: TreeNode) -> bool
    ensures { result ≡ (is_of BOUND_OPT_NONE node || is_of BOUND_ELLIPSIS node) }
{
    is_of(node, BOUND_OPT_NONE) || is_of(node, BOUND_ELLIPSIS)
}

// The dimension of a bound that begins with a number, from what stands below its production.
fn numbered(nodes: &[TreeNode]) -> Dimension
    requires { IsForest nodes.now }
    ensures { (f : Forest) → preorder f ≡ nodes.now → bound_of result ≡ bound (part BOUND_INT f) }
{
    let first = leaf_at(nodes, 0);
    if !has(nodes, BOUND_END) {
        return Dimension {
            lower: None,
            size: Some(first),
        };
    }
    if !has(nodes, INT_OPT_SOME) {
        return Dimension {
            lower: Some(first),
            size: None,
        };
    }
    Dimension {
        lower: Some(first),
        size: Some(leaf_at(the(nodes, INT_OPT_SOME), 0)),
    }
}

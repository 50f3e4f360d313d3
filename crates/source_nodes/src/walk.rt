//! Looking for productions among the nodes of a derivation.

ghost use Rattle.std.specs.Prelude.{◌≡◌, ◌<◌, ◌^◌, ℕ, [], ◌∷◌, take, drop, length, IfOk, MatchOption};
ghost use Rattle.source_nodes.specs.Walk.{IsForest, Finds, Opens, count_below, is_of};
ghost use Rattle.source_model.specs.Forest.{Forest, child, each, first_token, has, last_token, leaf_at, parts, preorder, the};

use il_base::{Items, NoMemory};
use ilasm_grammar::TreeNode;
use source_model::{derivations_are_forests, forests_join, forests_open};
use std::alloc::Global;

/// A branch: its place among the nodes, and how many nodes stand below it.
#[derive(Debug, Clone, Copy, Drop)]
pub struct Found {
    pub at: usize,
    pub count: usize,
}

/// The first node of a forest: what stands below it, what stands after that, and all nodes behind it.
#[derive(Clone, Copy)]
pub struct Opened<'a> {
    pub node: TreeNode,
    pub below: &'a [TreeNode],
    pub after: &'a [TreeNode],
    pub behind: &'a [TreeNode],
}

/// How many nodes stand below a node.
pub fn count_below(node: TreeNode) -> usize
    ensures count { result ≡ count_below node }
    ensures few { result < 2 ^ 32 }
{
    match node {
        TreeNode::Branch { nodes, .. } => nodes as usize,
        TreeNode::Leaf { .. } => 0,
    }
}

/// The first so many nodes, and those behind them.
pub fn cut(nodes: &[TreeNode], count: usize) -> (&[TreeNode], &[TreeNode])
    ensures front { result.0.now ≡ take count nodes.now }
    ensures back { result.1.now ≡ drop count nodes.now }
{
    if count < nodes.len() {
        nodes.split_at(count)
    } else {
        (nodes, &[])
    }
}

/// The first node with what stands below and after it, where there is one.
pub fn open(nodes: &[TreeNode]) -> Option<Opened<'_>>
    ensures { MatchOption result (nodes.now ≡ []) (λ x. Opens nodes.now x) }
{
    forests_open();
    forests_join();
    let (node, behind) = next(nodes)?;
    let (below, after) = cut(behind, count_below(node));
    Some(Opened {
        node,
        below,
        after,
        behind,
    })
}

/// Whether a node is a branch with this production.
pub fn is_of(node: TreeNode, production: u16) -> bool
    ensures { result ≡ is_of production node }
{
    match node {
        TreeNode::Branch { production: p, .. } => production == p,
        TreeNode::Leaf { .. } => false,
    }
}

/// The outermost branches with this production, in order.
pub fn each(alloc: Global, nodes: &[TreeNode], production: u16) -> Result<Items<Found>, NoMemory>
    requires { IsForest nodes.now }
    ensures { IfOk result (λ found. (f : Forest) → preorder f ≡ nodes.now → Finds nodes.now found (parts (production ∷ []) f)) }
{
    derivations_are_forests();
    forests_open();
    forests_join();
    let mut found = Items::new(alloc);
    let mut at = 0;
    while let Some(node) = nodes.get(at) {
        match *node {
            TreeNode::Branch {
                production: p,
                nodes: count,
            } => {
                let count = count as usize;
                if p == production {
                    found.push(Found { at, count })?;
                    at += 1 + count;
                } else {
                    at += 1;
                }
            }
            TreeNode::Leaf { .. } => at += 1,
        }
    }
    Ok(found)
}

/// How many outermost branches have this production.
pub fn count(alloc: Global, nodes: &[TreeNode], production: u16) -> Result<usize, NoMemory>
    requires { IsForest nodes.now }
    ensures { (f : Forest) → preorder f ≡ nodes.now → IfOk result (λ n. n ≡ length (each production f)) }
{
    let found = each(alloc, nodes, production)?;
    Ok(found.len())
}

/// The first node and those behind it, where there is one.
pub fn next(nodes: &[TreeNode]) -> Option<(TreeNode, &[TreeNode])>
    ensures { MatchOption result (nodes.now ≡ []) (λ step. nodes.now ≡ step.0 ∷ step.1.now) }
{
    match nodes {
        [] => None,
        [node, rest @ ..] => Some((*node, rest)),
    }
}

/// The nodes below the first branch with this production, in preorder; none where there is none.
pub fn the<'a>(nodes: &'a [TreeNode], production: u16) -> &'a [TreeNode]
    requires { IsForest nodes.now }
    ensures { (f : Forest) → preorder f ≡ nodes.now → result.now ≡ preorder (the production f) }
{
    derivations_are_forests();
    forests_open();
    forests_join();
    let mut left = nodes;
    while let Some((node, rest)) = next(left) {
        match node {
            TreeNode::Branch {
                production: p,
                nodes: count,
            } => {
                if p == production {
                    let (below, _) = rest.split_at(count as usize);
                    return below;
                }
                left = rest;
            }
            TreeNode::Leaf { .. } => left = rest,
        }
    }
    &[]
}

/// Whether there is a branch with this production.
pub fn has(nodes: &[TreeNode], production: u16) -> bool
    requires { IsForest nodes.now }
    ensures { (f : Forest) → preorder f ≡ nodes.now → result ≡ has production f }
{
    derivations_are_forests();
    forests_open();
    forests_join();
    let mut left = nodes;
    while let Some((node, rest)) = next(left) {
        match node {
            TreeNode::Branch { production: p, .. } => {
                if p == production {
                    return true;
                }
                left = rest;
            }
            TreeNode::Leaf { .. } => left = rest,
        }
    }
    false
}

/// The nodes below the first branch at the top that has this production; none where there is none.
pub fn child<'a>(nodes: &'a [TreeNode], production: u16) -> &'a [TreeNode]
    requires { IsForest nodes.now }
    ensures { (f : Forest) → preorder f ≡ nodes.now → result.now ≡ preorder (child (production ∷ []) f) }
{
    derivations_are_forests();
    forests_open();
    let mut left = nodes;
    while let Some((node, rest)) = next(left) {
        match node {
            TreeNode::Branch {
                production: p,
                nodes: count,
            } => {
                let (below, after) = rest.split_at(count as usize);
                if p == production {
                    return below;
                }
                left = after;
            }
            TreeNode::Leaf { .. } => left = rest,
        }
    }
    &[]
}

/// The token at the top with this number, counted from 0; 0 where there are fewer.
pub fn leaf_at(nodes: &[TreeNode], k: usize) -> u32
    requires { IsForest nodes.now }
    ensures { (f : Forest) → preorder f ≡ nodes.now → result ≡ leaf_at k f }
{
    derivations_are_forests();
    forests_open();
    let mut left = nodes;
    let mut before = k;
    while let Some((node, rest)) = next(left) {
        match node {
            TreeNode::Branch { nodes: count, .. } => {
                let (_, after) = rest.split_at(count as usize);
                left = after;
            }
            TreeNode::Leaf { token } => {
                if before == 0 {
                    return token;
                }
                before -= 1;
                left = rest;
            }
        }
    }
    0
}

/// The first token; 0 where there is none.
pub fn first_token(nodes: &[TreeNode]) -> u32
    requires { IsForest nodes.now }
    ensures { (f : Forest) → preorder f ≡ nodes.now → result ≡ first_token f }
{
    derivations_are_forests();
    forests_open();
    forests_join();
    let mut left = nodes;
    while let Some((node, rest)) = next(left) {
        match node {
            TreeNode::Branch { .. } => left = rest,
            TreeNode::Leaf { token } => return token,
        }
    }
    0
}

/// The last token; 0 where there is none.
pub fn last_token(nodes: &[TreeNode]) -> u32
    requires { IsForest nodes.now }
    ensures { (f : Forest) → preorder f ≡ nodes.now → result ≡ last_token f }
{
    derivations_are_forests();
    forests_open();
    forests_join();
    let mut left = nodes;
    let mut last = 0;
    while let Some((node, rest)) = next(left) {
        match node {
            TreeNode::Branch { .. } => left = rest,
            TreeNode::Leaf { token } => {
                last = token;
                left = rest;
            }
        }
    }
    last
}

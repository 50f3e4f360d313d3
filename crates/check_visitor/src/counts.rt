//! Counts that are limited, and numbers in types and signatures (ECMA-335 II.7.1, II.10.1.7, II.15.3, II.23.2).

ghost use Rattle.std.specs.Prelude.{◌≡◌, drop, length};
ghost use Rattle.source_model.specs.Forest.{Forest, each, preorder};
ghost use Rattle.source_model.specs.Nodes.{Node};
ghost use Rattle.source_model.specs.Source.{Source};
ghost use Rattle.source_model.specs.TypeRules.{arguments_out_of_range, first_of, generic_number_out_of_range, index_out_of_range, past_count, second_ellipsis, typars_out_of_range};
ghost use Rattle.source_model.specs.Variables.{locals};
ghost use Rattle.source_nodes.specs.Least.{least};
ghost use Rattle.source_nodes.specs.Readers.{Reads};
ghost use Rattle.source_nodes.specs.Walk.{IsForest};

use crate::ranges::outside;
use ilasm_grammar::{TreeNode, productions};
use source_model::{derivations_are_forests, forests_join, forests_open};
use source_nodes::reader::Reader;
use source_nodes::walk::{first_token, has, leaf_at, next, the};

// How many parameters, arguments or generic parameters one owner may have.
const MOST: usize = 65_535;

/// The first argument or parameter past 65,535 of a reference or a method.
pub fn argument_past_most(production: u16, below: &[TreeNode]) -> Option<u32>
    requires { IsForest below.now }
    ensures { (n : Node) → n.production ≡ production → preorder n.below ≡ below.now → result ≡ least (arguments_out_of_range n) }
{
    match production {
        productions::SIGNATURE | productions::DEF_ARGS => {
            first_past(below, productions::DEF_ARG, MOST)
        }
        _ => None,
    }
}

/// The second `...` of a signature.
pub fn second_ellipsis(production: u16, below: &[TreeNode]) -> Option<u32>
    requires { IsForest below.now }
    ensures { (n : Node) → n.production ≡ production → preorder n.below ≡ below.now → result ≡ least (second_ellipsis n) }
{
    match production {
        productions::SIGNATURE => first_past(below, productions::SIG_ARG_ELLIPSIS, 1),
        _ => None,
    }
}

/// The first generic parameter past 65,535.
pub fn typar_past_most(production: u16, below: &[TreeNode]) -> Option<u32>
    requires { IsForest below.now }
    ensures { (n : Node) → n.production ≡ production → preorder n.below ≡ below.now → result ≡ least (typars_out_of_range n) }
{
    match production {
        productions::TYPARS => first_past(below, productions::TYPAR, MOST),
        _ => None,
    }
}

/// The first local past 65,535 of a method.
pub fn local_past_most(method: &[TreeNode]) -> Option<u32>
    requires { IsForest method.now }
    ensures { (f : Forest) → preorder f ≡ method.now → result ≡ least (past_count (locals f)) }
{
    first_past(method, productions::LOCAL, MOST)
}

/// The generic number of a reference, or its first generic argument past 65,535, that is out of its range.
pub fn generic_number(reader: &Reader, production: u16, below: &[TreeNode]) -> Option<u32>
    requires { IsForest below.now }
    ensures { (s : Source) (n : Node) → Reads reader.now s → n.production ≡ production → preorder n.below ≡ below.now → result ≡ least (generic_number_out_of_range s n) }
{
    match production {
        productions::GEN_ARGS_BRACKET => outside(reader, leaf_at(below, 1), 1, 65_535),
        productions::GEN_ARGS_TYPE => first_past(below, productions::TYPE, MOST),
        _ => None,
    }
}

/// The number of a generic parameter that is out of its range.
pub fn index_number(reader: &Reader, production: u16, below: &[TreeNode]) -> Option<u32>
    requires { IsForest below.now }
    ensures { (s : Source) (n : Node) → Reads reader.now s → n.production ≡ production → preorder n.below ≡ below.now → result ≡ least (index_out_of_range s n) }
{
    match production {
        productions::TYPE_BASE_BANG | productions::TYPE_BASE_DOUBLE_BANG => {
            if has(below, productions::INDEX_INT) {
                outside(
                    reader,
                    leaf_at(the(below, productions::INDEX_INT), 0),
                    0,
                    65_535,
                )
            } else {
                None
            }
        }
        _ => None,
    }
}

// The first token of the first part with this production behind so many of them.
fn first_past(nodes: &[TreeNode], production: u16, skip: usize) -> Option<u32>
    requires { IsForest nodes.now }
    ensures { (f : Forest) → preorder f ≡ nodes.now → result ≡ least (first_of (drop skip (each production f))) }
{
    if nodes.len() <= skip {
        return None;
    }
    derivations_are_forests();
    forests_open();
    forests_join();
    let mut left = nodes;
    let mut more = skip;
    while let Some((node, rest)) = next(left) {
        match node {
            TreeNode::Branch {
                production: p,
                nodes: count,
            } => {
                if p == production {
                    let (below, after) = rest.split_at(count as usize);
                    if more == 0 {
                        return Some(first_token(below));
                    }
                    more -= 1;
                    left = after;
                } else {
                    left = rest;
                }
            }
            TreeNode::Leaf { .. } => left = rest,
        }
    }
    None
}

/// How many outermost branches have this production.
pub fn count_each(nodes: &[TreeNode], production: u16) -> usize
    requires { IsForest nodes.now }
    ensures { (f : Forest) → preorder f ≡ nodes.now → result ≡ length (each production f) }
{
    derivations_are_forests();
    forests_open();
    forests_join();
    let mut left = nodes;
    let mut found = 0;
    while let Some((node, rest)) = next(left) {
        match node {
            TreeNode::Branch {
                production: p,
                nodes: count,
            } => {
                if p == production {
                    let (_, after) = rest.split_at(count as usize);
                    found += 1;
                    left = after;
                } else {
                    left = rest;
                }
            }
            TreeNode::Leaf { .. } => left = rest,
        }
    }
    found
}

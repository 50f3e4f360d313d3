//! The bounds and ranks of arrays (ECMA-335 II.14.2, II.23.2.13).

ghost use Rattle.std.specs.Prelude.{◌≡◌, ◌+ℤ◌, ◌-ℤ◌, [], ◌∷◌, IfOk, MatchOption, Some, drop, map, negsuc, pos, true};
ghost use Rattle.std.specs.List.{flat_map};
ghost use Rattle.source_model.specs.Forest.{Forest, preorder};
ghost use Rattle.source_model.specs.Nodes.{Node};
ghost use Rattle.source_model.specs.Shapes.{commas};
ghost use Rattle.source_model.specs.Source.{Source};
ghost use Rattle.source_model.specs.TypeRules.{comma_past_rank, first_size, is_within, lower_out_of_range, size_after_gap, size_out_of_range};
ghost use Rattle.source_model.specs.Values.{int_at};
ghost use Rattle.source_nodes.specs.Dimensions.{bound_of};
ghost use Rattle.source_nodes.specs.Least.{least};
ghost use Rattle.source_nodes.specs.Readers.{Reads};
ghost use Rattle.source_nodes.specs.Walk.{IsForest};
ghost use Rattle.check_names.specs.ArrayNumbers.{array_number, dimension_number, shape_number};

use check_visitor::ranges::{outside, unless};
use il_base::NoMemory;
use il_lexer::word;
use ilasm_grammar::{TreeNode, productions};
use source_model::{derivations_are_forests, forests_join, forests_open};
use source_nodes::least::sooner;
use source_nodes::reader::Reader;
use source_nodes::shapes::{Dimension, dimensions};
use source_nodes::walk::{has, next};
use std::alloc::Global;

// How many commas a shape may have: one less than its most dimensions.
const MOST_COMMAS: u8 = 31;

/// The least number of an array's shape that is out of its range, or what of the shape stands at a wrong place.
pub fn array_number(
    alloc: Global,
    reader: &Reader,
    production: u16,
    below: &[TreeNode],
) -> Result<Option<u32>, NoMemory>
    requires { IsForest below.now }
    ensures { (s : Source) (n : Node) → Reads reader.now s → n.production ≡ production → preorder n.below ≡ below.now → IfOk result (λ k. k ≡ least (array_number s n)) }
{
    match production {
        productions::TYPE_SUFFIX_BRACKET => shape_number(alloc, reader, below),
        _ => Ok(None),
    }
}

// The same, from what stands below the suffix's production.
fn shape_number(alloc: Global, reader: &Reader, shape: &[TreeNode]) -> Result<Option<u32>, NoMemory>
    requires { IsForest shape.now }
    ensures { (s : Source) (f : Forest) → Reads reader.now s → preorder f ≡ shape.now → IfOk result (λ k. k ≡ least (shape_number s f)) }
{
    if has(shape, productions::SHAPE_CLOSE) {
        return Ok(None);
    }
    let dimensions = dimensions(alloc, shape)?;
    let bound = bound_number(reader, dimensions.as_slice());
    let gap = size_after_gap(dimensions.as_slice());
    let comma = comma_past_rank(reader, shape);
    let to_gap = sooner(bound, gap);
    Ok(sooner(to_gap, comma))
}

// The least bound that is out of its range.
fn bound_number(reader: &Reader, dimensions: &[Dimension]) -> Option<u32>
    ensures { (s : Source) → Reads reader.now s → result ≡ least (flat_map (dimension_number s) (map bound_of dimensions.now)) }
{
    let mut left = dimensions;
    let mut found = None;
    while let Some((dimension, rest)) = next_dimension(left) {
        let here = dimension_number(reader, dimension);
        found = sooner(found, here);
        left = rest;
    }
    found
}

// The first dimension and those behind it, where there is one.
fn next_dimension(dimensions: &[Dimension]) -> Option<(Dimension, &[Dimension])>
    ensures { MatchOption result (dimensions.now ≡ []) (λ step. dimensions.now ≡ step.0 ∷ step.1.now) }
{
    match dimensions {
        [] => None,
        [dimension, rest @ ..] => Some((*dimension, rest)),
    }
}

// The lower bound of a dimension that is out of its range, or else its size.
fn dimension_number(reader: &Reader, dimension: Dimension) -> Option<u32>
    ensures { (s : Source) → Reads reader.now s → result ≡ least (dimension_number s (bound_of dimension)) }
{
    match lower_number(reader, dimension.lower) {
        Some(token) => Some(token),
        None => size_number(reader, dimension.lower, dimension.size),
    }
}

fn lower_number(reader: &Reader, lower: Option<u32>) -> Option<u32>
    ensures { (s : Source) → Reads reader.now s → result ≡ least (lower_out_of_range s lower) }
{
    match lower {
        None => None,
        Some(token) => outside(reader, token, -0x1000_0000, 0xFFF_FFFF),
    }
}

fn size_number(reader: &Reader, lower: Option<u32>, size: Option<u32>) -> Option<u32>
    ensures { (s : Source) → Reads reader.now s → lower_out_of_range s lower ≡ [] → result ≡ least (size_out_of_range s lower size) }
{
    let token = size?;
    match lower {
        None => outside(reader, token, 0, 0x1FFF_FFFF),
        Some(first) => unless(is_size(reader, first, token), token),
    }
}

// Whether a dimension from a lower to an upper bound has a size.
fn is_size(reader: &Reader, first: u32, token: u32) -> bool
    ensures { (s : Source) → Reads reader.now s → is_within (negsuc 0xFFFFFFF) (pos 0xFFFFFFF) (int_at s first) ≡ true →
        result ≡ is_within (pos 0) (pos 0x1FFFFFFF) ((int_at s token -ℤ int_at s first) +ℤ pos 1) }
{
    let Some(low) = reader.integer(first) else {
        return false;
    };
    match reader.integer(token) {
        Some(high) => is_size_between(low, high),
        None => false,
    }
}

fn is_size_between(low: i128, high: i128) -> bool
    ensures { is_within (negsuc 0xFFFFFFF) (pos 0xFFFFFFF) low ≡ true → result ≡ is_within (pos 0) (pos 0x1FFFFFFF) ((high -ℤ low) +ℤ pos 1) }
{
    if low < -0x1000_0000 || low > 0xFFF_FFFF {
        return false;
    }
    low - 1 <= high && high <= low + 0x1FFF_FFFE
}

// The first size behind a dimension without one.
fn size_after_gap(dimensions: &[Dimension]) -> Option<u32>
    ensures { result ≡ least (size_after_gap (map bound_of dimensions.now)) }
{
    let mut left = dimensions;
    while let [dimension, rest @ ..] = left {
        if dimension.size.is_none() {
            return first_size(rest);
        }
        left = rest;
    }
    None
}

fn first_size(dimensions: &[Dimension]) -> Option<u32>
    ensures { result ≡ least (first_size (map bound_of dimensions.now)) }
{
    let mut left = dimensions;
    while let [dimension, rest @ ..] = left {
        if dimension.size.is_some() {
            return dimension.size;
        }
        left = rest;
    }
    None
}

// The comma that begins the 33rd dimension.
fn comma_past_rank(reader: &Reader, shape: &[TreeNode]) -> Option<u32>
    requires { IsForest shape.now }
    ensures { (s : Source) (f : Forest) → Reads reader.now s → preorder f ≡ shape.now → result ≡ least (comma_past_rank (drop 31 (commas s f))) }
{
    derivations_are_forests();
    forests_open();
    forests_join();
    let mut left = shape;
    let mut more = MOST_COMMAS;
    while let Some((node, rest)) = next(left) {
        match node {
            TreeNode::Branch { .. } => left = rest,
            TreeNode::Leaf { token } => {
                if reader.is_word(word::COMMA, token) {
                    if more == 0 {
                        return Some(token);
                    }
                    more -= 1;
                    left = rest;
                } else {
                    left = rest;
                }
            }
        }
    }
    None
}

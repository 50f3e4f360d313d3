//! The sizes of value types by their layouts (ECMA-335 II.10.7, II.22.8).

ghost use Rattle.std.specs.Prelude.{◌≡◌};
ghost use Rattle.source_model.specs.Forest.{Forest, preorder};
ghost use Rattle.source_model.specs.OutOfRange.{asked_class_size};
ghost use Rattle.source_model.specs.Source.{Source};
ghost use Rattle.source_model.specs.Values.{int_at};
ghost use Rattle.source_nodes.specs.Readers.{Reads};
ghost use Rattle.source_nodes.specs.Walk.{IsForest};
ghost use Rattle.check_names.specs.ClassSizes.{is_member, last_size, ranged_size, size_or};

use ilasm_grammar::{TreeNode, productions};
use source_model::{derivations_are_forests, forests_join, forests_open};
use source_nodes::reader::Reader;
use source_nodes::walk::{leaf_at, next};

/// The bytes that are asked of data for a value of a class, where its layout states them: its class size, and 0 where that is out
/// of its range.
pub fn class_size(reader: &Reader, class: &[TreeNode]) -> Option<u32>
    requires { IsForest class.now }
    ensures { (s : Source) (f : Forest) → Reads reader.now s → preorder f ≡ class.now → result ≡ asked_class_size s f }
{
    match last_size(reader, class) {
        None => Some(0),
        Some(0) => None,
        Some(size) => Some(size),
    }
}

// The number of the last `.size` among the members of a class, 0 where there is none; None where it is out of its range.
fn last_size(reader: &Reader, class: &[TreeNode]) -> Option<u32>
    requires { IsForest class.now }
    ensures { (s : Source) (f : Forest) → Reads reader.now s → preorder f ≡ class.now → result ≡ last_size s f }
{
    derivations_are_forests();
    forests_open();
    forests_join();
    let mut left = class;
    let mut last: Option<u32> = Some(0);
    while let Some((node, rest)) = next(left) {
        match node {
            TreeNode::Branch {
                production,
                nodes: count,
            } => {
                if is_member(production) {
                    let (below, after) = rest.split_at(count as usize);
                    last = size_or(reader, production, below, last);
                    left = after;
                } else {
                    left = rest;
                }
            }
            TreeNode::Leaf { .. } => left = rest,
        }
    }
    last
}

// The number of a member that is a `.size`, else the one before.
fn size_or(
    reader: &Reader,
    production: u16,
    member: &[TreeNode],
    before: Option<u32>,
) -> Option<u32>
    requires { IsForest member.now }
    ensures { (s : Source) (f : Forest) → Reads reader.now s → preorder f ≡ member.now → result ≡ size_or s production f before }
{
    if production == productions::MEMBER_SIZE {
        ranged(reader, leaf_at(member, 1))
    } else {
        before
    }
}

// The number that an INT spells, where it fits 32 bits.
fn ranged(reader: &Reader, token: u32) -> Option<u32>
    ensures { (s : Source) → Reads reader.now s → result ≡ ranged_size (int_at s token) }
{
    match reader.integer(token) {
        Some(value) => ranged_of(value),
        None => None,
    }
}

fn ranged_of(value: i128) -> Option<u32>
    ensures { result ≡ ranged_size value }
{
    if 0 <= value && value <= 0xFFFF_FFFF {
        Some(value as u32)
    } else {
        None
    }
}

fn is_member(production: u16) -> bool
    ensures { result ≡ is_member production }
{
    matches!(
        production,
        productions::MEMBER_CLASS
            | productions::MEMBER_FIELD
            | productions::MEMBER_METHOD
            | productions::MEMBER_PROPERTY
            | productions::MEMBER_EVENT
            | productions::MEMBER_CUSTOM
            | productions::MEMBER_DATA
            | productions::MEMBER_PARAM
            | productions::MEMBER_PACK
            | productions::MEMBER_SIZE
    )
}

//! The lengths of data that fields are mapped to (ECMA-335 II.16.3).

ghost use Rattle.std.specs.Prelude.{◌≡◌, ◌≤◌, ◌++◌, IfOk, map, min, option_map, slice_get};
ghost use Rattle.source_model.specs.Data.{data_named, labelled};
ghost use Rattle.source_model.specs.Forest.{Forest, preorder};
ghost use Rattle.source_model.specs.Source.{Source};
ghost use Rattle.source_nodes.specs.Derived.{HasBodies};
ghost use Rattle.source_syntax.specs.Namings.{AreNames};
ghost use Rattle.source_nodes.specs.Readers.{Reads};
ghost use Rattle.source_syntax.specs.declared.name_lists.Naming.TheVariants as naming;
ghost use Rattle.source_nodes.specs.Walk.{IsForest};
ghost use Rattle.check_names.specs.MappedData.{counted_by, counted_length, length_labelled};

use crate::data_lengths::{is_item, known_length};
use il_base::{Items, NoMemory};
use ilasm_grammar::{TreeNode, productions};
use source_model::{derivations_are_forests, forests_join, forests_open};
use source_nodes::derived::derivations_have_bodies;
use source_nodes::reader::Reader;
use source_nodes::walk::{has, is_of, next, open};
use source_syntax::name_lists::Named;
use std::alloc::Global;

// Up to which number bytes are counted: no value has so many.
const MOST: u64 = 0x1_0000_0000;

/// The length of the first data with this label, counted up to 2^32; 2^32 where a repeat in it is out of its range.
pub fn length_named(labels: &Named, lengths: &[u64], label: &[u8]) -> Option<u64>
    ensures { (s : Source) → AreNames s naming.Label labels.now → lengths.now ≡ map (counted_length s) (labelled s) →
        result ≡ option_map (counted_length s) (data_named s label.now) }
{
    match labels.names.find(label) {
        Some(k) => length_at(lengths, k),
        None => None,
    }
}

fn length_at(lengths: &[u64], k: usize) -> Option<u64>
    ensures { result ≡ slice_get lengths.now k }
{
    lengths.get(k).copied()
}

/// The lengths of the data with labels, in order, each counted up to 2^32; 2^32 where a repeat in it is out of its range.
pub fn lengths(alloc: Global, reader: &Reader) -> Result<Items<u64>, NoMemory>
    requires { IsForest reader.now.nodes.now }
    ensures { (s : Source) → Reads reader.now s → IfOk result (λ ns. ns ≡ map (counted_length s) (labelled s)) }
{
    derivations_have_bodies();
    forests_join();
    let mut found = Items::new(alloc);
    let mut left = reader.nodes;
    while let Some(x) = open(left) {
        if is_of(x.node, productions::DATA) {
            push_length(alloc, reader, &mut found, x.below)?;
            left = x.after;
        } else {
            left = x.behind;
        }
    }
    Ok(found)
}

// Adds the length of data, where it has a label.
fn push_length(
    alloc: Global,
    reader: &Reader,
    found: &mut Items<u64>,
    below: &[TreeNode],
) -> Result<(), NoMemory>
    requires { IsForest below.now }
    ensures { (s : Source) (f : Forest) → Reads reader.now s → preorder f ≡ below.now → HasBodies s f →
        IfOk result (λ _. found.new ≡ found.old ++ length_labelled s f) }
{
    if has(below, productions::DATA_LABEL) {
        let length = data_length(alloc, reader, below)?;
        found.push(length)
    } else {
        Ok(())
    }
}

// How many bytes data has, counted up to 2^32; 2^32 where a repeat in it is out of its range.
fn data_length(alloc: Global, reader: &Reader, below: &[TreeNode]) -> Result<u64, NoMemory>
    requires { IsForest below.now }
    ensures { (s : Source) (f : Forest) → Reads reader.now s → preorder f ≡ below.now → HasBodies s f → IfOk result (λ n. n ≡ counted_length s f) }
{
    derivations_are_forests();
    forests_open();
    forests_join();
    let mut left = below;
    let mut total: u64 = 0;
    while let Some((node, rest)) = next(left) {
        match node {
            TreeNode::Branch {
                production,
                nodes: count,
            } => {
                if is_item(production) {
                    let (item, after) = rest.split_at(count as usize);
                    let length = known_length(alloc, reader, production, item)?;
                    total = up_to_most(total + counted(length));
                    left = after;
                } else {
                    left = rest;
                }
            }
            TreeNode::Leaf { .. } => left = rest,
        }
    }
    Ok(total)
}

// A length as it is counted; one that isn't known is enough for all.
fn counted(length: Option<u64>) -> u64
    ensures few { result ≤ 0x100000000 }
    ensures number { result ≡ counted_by length }
{
    match length {
        Some(length) => up_to_most(length),
        None => MOST,
    }
}

fn up_to_most(count: u64) -> u64
    ensures { result ≡ min count 0x100000000 }
{
    if count < MOST { count } else { MOST }
}

//! The lengths of data (ECMA-335 II.16.3).

ghost use Rattle.std.specs.Prelude.{◌≡◌, ◌/◌, IfOk, MatchOption, false, length, pos, true};
ghost use Rattle.il_lexer.specs.declared.types.TokenKind.TheVariants.{ByteArray};
ghost use Rattle.source_model.specs.Data.{data_items, item_bits, item_count};
ghost use Rattle.source_model.specs.Forest.{Forest, Part, part, preorder};
ghost use Rattle.source_model.specs.Nodes.{Node};
ghost use Rattle.source_model.specs.OutOfRange.{counted_length, data_too_long, is_repeat, item_past_length, stands_too_often};
ghost use Rattle.source_model.specs.Source.{Source};
ghost use Rattle.source_model.specs.Values.{array_bytes, int_at};
ghost use Rattle.source_nodes.specs.Derived.{FitsBody, HasBodies};
ghost use Rattle.source_nodes.specs.Least.{least};
ghost use Rattle.source_nodes.specs.Readers.{IsOf, Reads};
ghost use Rattle.source_nodes.specs.Walk.{IsForest};
ghost use Rattle.check_names.specs.DataItems.{is_item, known_length};
ghost use Rattle.check_visitor.specs.NumberTests.{bits_in};

use crate::data_numbers::item_width;
use check_visitor::ranges::Width;
use il_base::NoMemory;
use ilasm_grammar::{TreeNode, productions};
use source_model::{derivations_are_forests, forests_join, forests_open};
use source_nodes::reader::Reader;
use source_nodes::walk::{first_token, has, leaf_at, next, the};
use std::alloc::Global;

// How many bytes one declaration of data may have, and how often an item may stand.
const MOST: u32 = 67_108_864;

/// The first token of the item with which data has more than 67,108,864 bytes.
pub fn data_too_long(
    alloc: Global,
    reader: &Reader,
    production: u16,
    below: &[TreeNode],
) -> Result<Option<u32>, NoMemory>
    requires { IsForest below.now }
    ensures { (s : Source) (n : Node) → Reads reader.now s → n.production ≡ production → preorder n.below ≡ below.now → HasBodies s n.below →
        IfOk result (λ k. k ≡ least (data_too_long s n)) }
{
    match production {
        productions::DATA => item_past_length(alloc, reader, below),
        _ => Ok(None),
    }
}

// The same, from what stands below the data's production.
fn item_past_length(
    alloc: Global,
    reader: &Reader,
    below: &[TreeNode],
) -> Result<Option<u32>, NoMemory>
    requires { IsForest below.now }
    ensures { (s : Source) (f : Forest) → Reads reader.now s → preorder f ≡ below.now → HasBodies s f →
        IfOk result (λ k. k ≡ least (item_past_length s 0 (data_items f))) }
{
    derivations_are_forests();
    forests_open();
    forests_join();
    let mut left = below;
    let mut before: u64 = 0;
    while let Some((node, rest)) = next(left) {
        match node {
            TreeNode::Branch {
                production,
                nodes: count,
            } => {
                if is_item(production) {
                    let (item, after) = rest.split_at(count as usize);
                    let length = counted_length(alloc, reader, production, item)?;
                    if length > u64::from(MOST) - before {
                        return Ok(Some(first_token(item)));
                    }
                    before += length;
                    left = after;
                } else {
                    left = rest;
                }
            }
            TreeNode::Leaf { .. } => left = rest,
        }
    }
    Ok(None)
}

/// Whether a production is an item of data.
pub fn is_item(production: u16) -> bool
    ensures { result ≡ is_item production }
{
    production == productions::DATA_ITEM_BYTES || production == productions::DATA_ITEM_DATA_NUM
}

// The bytes of an item, none where it stands too often.
fn counted_length(
    alloc: Global,
    reader: &Reader,
    production: u16,
    item: &[TreeNode],
) -> Result<u64, NoMemory>
    requires { IsForest item.now }
    ensures { (s : Source) (f : Forest) → Reads reader.now s → preorder f ≡ item.now → FitsBody s production f →
        IfOk result (λ n. n ≡ counted_length s (part production f)) }
{
    let length = known_length(alloc, reader, production, item)?;
    Ok(or_none(length))
}

fn or_none(length: Option<u64>) -> u64
    ensures { (s : Source) (p : Part) → length ≡ known_length s p → result ≡ counted_length s p }
{
    match length {
        Some(length) => length,
        None => 0,
    }
}

/// The bytes of an item, where it doesn't stand too often.
pub fn known_length(
    alloc: Global,
    reader: &Reader,
    production: u16,
    item: &[TreeNode],
) -> Result<Option<u64>, NoMemory>
    requires { IsForest item.now }
    ensures { (s : Source) (f : Forest) → Reads reader.now s → preorder f ≡ item.now → FitsBody s production f →
        IfOk result (λ n. n ≡ known_length s (part production f)) }
{
    let Some(count) = item_count(reader, item) else {
        return Ok(None);
    };
    if production == productions::DATA_ITEM_BYTES {
        let bytes = byte_count(alloc, reader, leaf_at(item, 0))?;
        return Ok(Some(bytes));
    }
    Ok(Some(u64::from(count) * u64::from(number_length(item))))
}

// How often an item stands, where it doesn't stand too often.
fn item_count(reader: &Reader, item: &[TreeNode]) -> Option<u32>
    requires { IsForest item.now }
    ensures { (s : Source) (f : Forest) → Reads reader.now s → preorder f ≡ item.now →
        MatchOption result (stands_too_often s f ≡ true) (λ n. (stands_too_often s f ≡ false) × (n ≡ item_count s f)) }
{
    if has(item, productions::BRACKETED_INT) {
        repeat(reader, leaf_at(the(item, productions::BRACKETED_INT), 1))
    } else {
        Some(1)
    }
}

// The number that an INT spells, where an item may stand so often.
fn repeat(reader: &Reader, token: u32) -> Option<u32>
    ensures { (s : Source) → Reads reader.now s → MatchOption result (is_repeat (int_at s token) ≡ false) (λ n. (int_at s token ≡ pos n) × (is_repeat (pos n) ≡ true)) }
{
    match reader.integer(token) {
        Some(value) => repeat_of(value),
        None => None,
    }
}

fn repeat_of(value: i128) -> Option<u32>
    ensures { MatchOption result (is_repeat value ≡ false) (λ n. (value ≡ pos n) × (is_repeat (pos n) ≡ true)) }
{
    if 0 <= value && value <= i128::from(MOST) {
        Some(value as u32)
    } else {
        None
    }
}

// How many bytes `bytearray ( .. )` has.
fn byte_count(alloc: Global, reader: &Reader, token: u32) -> Result<u64, NoMemory>
    ensures { (s : Source) → Reads reader.now s → IsOf s ByteArray token → IfOk result (λ n. n ≡ length (array_bytes s token)) }
{
    let bytes = reader.array_bytes(alloc, token)?;
    Ok(bytes.len() as u64)
}

// The bytes of a number of an item.
fn number_length(item: &[TreeNode]) -> u8
    requires { IsForest item.now }
    ensures { (f : Forest) → preorder f ≡ item.now → result ≡ item_bits f / 8 }
{
    width_length(item_width(item))
}

/// The bytes of a width.
pub fn width_length(width: Width) -> u8
    ensures { result ≡ bits_in width / 8 }
{
    match width {
        Width::Bits8 => 1,
        Width::Bits16 => 2,
        Width::Bits32 => 4,
        Width::Bits64 => 8,
    }
}

//! The bytes that declarations of data give (ECMA-335 II.16.3).

ghost use Rattle.std.specs.Prelude.{◌≡◌, ◌++◌, ◌/◌, ℤ, IfOk};
ghost use Rattle.ilasm_grammar.specs.declared.productions.TheConstants.{DATA_ITEM_DATA_NUM};
ghost use Rattle.lower_members.specs.DataItems.{IsItem, IsWidth};
ghost use Rattle.lower_members.specs.Runs.{bytes_of_runs, run_bytes};
ghost use Rattle.source_flags.specs.InRange.{AllInRange, IsInRange};
ghost use Rattle.source_model.specs.Constants.{bits_of, wrapped};
ghost use Rattle.source_model.specs.Data.{data_bytes, item_bits, item_bytes, item_count, item_value, little_bytes};
ghost use Rattle.source_model.specs.Forest.{Forest, Part, preorder};
ghost use Rattle.source_model.specs.Source.{Source};
ghost use Rattle.source_nodes.specs.Readers.{Reads};
ghost use Rattle.source_nodes.specs.Walk.{IsForest};

use crate::runs::{Run, Runs};
use il_base::{Bytes, Items, NoMemory};
use ilasm_grammar::TreeNode;
use ilasm_grammar::productions::{
    BRACKETED_INT, DATA_ITEM_BYTES, DATA_NUM_FLOAT32, DATA_NUM_INT_TYPE, PARENTHESIZED_INT,
};
use source_flags::gathering::{Kind, parts_of};
use source_flags::naturals::natural_32;
use source_nodes::pieces::nodes_of;
use source_nodes::reader::Reader;
use source_nodes::walk::{has, leaf_at, the};
use source_syntax::bases::int_type;
use std::alloc::Global;
use type_terms::Prim;

/// The bytes that a declaration of data gives, as runs: one for each of its items that has any.
pub fn data_runs(alloc: Global, reader: &Reader, nodes: &[TreeNode]) -> Result<Runs, NoMemory>
    requires { IsForest nodes.now }
    ensures { (s : Source) (f : Forest) → Reads reader.now s → preorder f ≡ nodes.now → AllInRange s f → IfOk result (λ runs. bytes_of_runs runs ≡ data_bytes s f) }
{
    let found = parts_of(alloc, nodes, Kind::DataItems)?;
    let mut runs = Items::new(alloc);
    for piece in found.as_slice() {
        push_item(
            &mut runs,
            alloc,
            reader,
            piece.production,
            nodes_of(nodes, *piece),
        )?;
    }
    Ok(runs)
}

// Adds the run of an item, where it has any bytes.
fn push_item(
    runs: &mut Runs,
    alloc: Global,
    reader: &Reader,
    production: u16,
    below: &[TreeNode],
) -> Result<(), NoMemory>
    requires { IsForest below.now }
    ensures { (s : Source) (p : Part) → Reads reader.now s → production ≡ p.production → preorder p.below ≡ below.now → IsItem s p →
        IfOk result (λ _. bytes_of_runs runs.new ≡ bytes_of_runs runs.old ++ item_bytes s p) }
{
    let run = item_run(alloc, reader, production, below)?;
    if run.is_empty() {
        return Ok(());
    }
    runs.push(run)
}

// The run of an item.
fn item_run(
    alloc: Global,
    reader: &Reader,
    production: u16,
    below: &[TreeNode],
) -> Result<Run, NoMemory>
    requires { IsForest below.now }
    ensures { (s : Source) (p : Part) → Reads reader.now s → production ≡ p.production → preorder p.below ≡ below.now → IsItem s p →
        IfOk result (λ run. run_bytes run ≡ item_bytes s p) }
{
    if production == DATA_ITEM_BYTES {
        let once = reader.array_bytes(alloc, leaf_at(below, 0))?;
        return Ok(Run { once, count: 1 });
    }
    let once = number_bytes(alloc, reader, below)?;
    Ok(Run {
        once,
        count: item_count(reader, below),
    })
}

// The bytes of the number of an item, once.
fn number_bytes(alloc: Global, reader: &Reader, below: &[TreeNode]) -> Result<Bytes, NoMemory>
    requires { IsForest below.now }
    ensures { (s : Source) (f : Forest) → Reads reader.now s → preorder f ≡ below.now →
        IfOk result (λ bytes. bytes ≡ little_bytes (item_bits f / 8) (wrapped (item_bits f) (item_value s f))) }
{
    let bits = item_bits(below);
    little_bytes(alloc, bits / 8, low_bits(bits, item_value(reader, below)))
}

// The bytes of a number, the lowest first.
fn little_bytes(alloc: Global, count: u32, value: u64) -> Result<Bytes, NoMemory>
    ensures { IfOk result (λ bytes. bytes ≡ little_bytes count value) }
{
    let mut bytes = Bytes::new(alloc);
    let mut left = count;
    let mut rest = value;
    while left > 0 {
        bytes.push((rest % 256) as u8)?;
        rest /= 256;
        left -= 1;
    }
    Ok(bytes)
}

// The width of the number of an item, in bits.
fn item_bits(below: &[TreeNode]) -> u32
    requires { IsForest below.now }
    ensures { (f : Forest) → preorder f ≡ below.now → result ≡ item_bits f }
{
    if has(below, DATA_NUM_INT_TYPE) {
        bits_of(int_type(the(below, DATA_NUM_INT_TYPE)))
    } else if has(below, DATA_NUM_FLOAT32) {
        32
    } else {
        64
    }
}

// The bits of an integer type.
fn bits_of(of: Prim) -> u32
    ensures { result ≡ bits_of of }
{
    match of {
        Prim::I1 | Prim::U1 => 8,
        Prim::I2 | Prim::U2 => 16,
        Prim::I4 | Prim::U4 => 32,
        Prim::I8 | Prim::U8 => 64,
        _ => 0,
    }
}

// The lowest bits of a number, from its lowest 64.
fn low_bits(width: u32, bits: u64) -> u64
    ensures { (z : ℤ) → bits ≡ wrapped 64 z → IsWidth width → result ≡ wrapped width z }
{
    match width {
        8 => bits % 0x100,
        16 => bits % 0x1_0000,
        32 => bits % 0x1_0000_0000,
        _ => bits,
    }
}

// The lowest 64 bits of the number of an item; without a value it is 0.
fn item_value(reader: &Reader, below: &[TreeNode]) -> u64
    requires { IsForest below.now }
    ensures { (s : Source) (f : Forest) → Reads reader.now s → preorder f ≡ below.now → result ≡ wrapped 64 (item_value s f) }
{
    if has(below, PARENTHESIZED_INT) {
        reader.wrapped_integer(leaf_at(the(below, PARENTHESIZED_INT), 1))
    } else {
        0
    }
}

// How often the bytes of an item stand.
fn item_count(reader: &Reader, below: &[TreeNode]) -> u32
    requires { IsForest below.now }
    ensures { (s : Source) (f : Forest) → Reads reader.now s → preorder f ≡ below.now → IsInRange s DATA_ITEM_DATA_NUM f → result ≡ item_count s f }
{
    if has(below, BRACKETED_INT) {
        natural_32(reader, leaf_at(the(below, BRACKETED_INT), 1))
    } else {
        1
    }
}

//! Numbers that a source keeps within bounds.

ghost use Rattle.std.specs.Prelude.{◌≡◌, ◌<◌, ◌^◌, [], ◌∷◌, false, pos, if◌then◌else◌, MatchOption};
ghost use Rattle.std.specs.List.{flat_map};
ghost use Rattle.assembly_tree.specs.WellFormedTypes.{is_pack};
ghost use Rattle.source_model.specs.Forest.{Forest, each, leaf_at, preorder};
ghost use Rattle.source_model.specs.OutOfRange.{fits_width, is_32_bits, is_natural_with};
ghost use Rattle.source_model.specs.Source.{Source};
ghost use Rattle.source_model.specs.TypeRules.{is_within, unless};
ghost use Rattle.source_model.specs.Values.{int_at};
ghost use Rattle.source_nodes.specs.Integers.{distance};
ghost use Rattle.source_nodes.specs.Least.{least};
ghost use Rattle.check_visitor.specs.NumberTests.{bits_in, keeps_within, test_of};
ghost use Rattle.source_nodes.specs.Readers.{Reads};
ghost use Rattle.source_nodes.specs.Walk.{IsForest};

use ilasm_grammar::TreeNode;
use source_model::{derivations_are_forests, forests_join, forests_open};
use source_nodes::least::sooner;
use source_nodes::reader::Reader;
use source_nodes::walk::{leaf_at, next};

/// A test that a number without a sign must pass.
#[derive(Debug, Clone, Copy, PartialEq, Eq, Drop)]
pub enum Test {
    ImageBase,
    FileAlignment,
    /// Flags of the CLI header.
    CorFlags,
    /// Flags of a method's implementation.
    Implementation,
    /// A packing size.
    Pack,
}

/// The width of a number.
#[derive(Debug, Clone, Copy, PartialEq, Eq, Drop)]
pub enum Width {
    Bits8,
    Bits16,
    Bits32,
    Bits64,
}

/// What a number must keep within: from 0 to a greatest one, what counts one of so many from 1 on, what a width holds, with a
/// sign or without one, or one number alone.
#[derive(Debug, Clone, Copy, PartialEq, Eq, Drop)]
pub enum Limit {
    UpTo(u32),
    OneOf(usize),
    Fits(Width),
    /// This number alone.
    Exactly(u64),
}

/// The token, unless the number that it spells lies from one to another.
pub fn outside(reader: &Reader, token: u32, low: i128, high: i128) -> Option<u32>
    requires low { distance low < 2 ^ 64 }
    requires high { distance high < 2 ^ 64 }
    ensures { (s : Source) → Reads reader.now s → result ≡ least (unless (is_within low high) s token) }
{
    unless(is_within(reader, token, low, high), token)
}

/// The token, unless the number that it spells has no sign and passes the test.
pub fn failing(reader: &Reader, token: u32, test: Test) -> Option<u32>
    ensures { (s : Source) → Reads reader.now s → result ≡ least (unless (is_natural_with (test_of test)) s token) }
{
    unless(is_natural_with(reader, token, test), token)
}

/// The token, unless its number fits this width, from the least signed to the greatest unsigned number.
pub fn outside_width(reader: &Reader, token: u32, width: Width) -> Option<u32>
    ensures { (s : Source) → Reads reader.now s → result ≡ least (unless (fits_width (bits_in width)) s token) }
{
    match width {
        Width::Bits8 => outside(reader, token, -0x80, 0xFF),
        Width::Bits16 => outside(reader, token, -0x8000, 0xFFFF),
        Width::Bits32 => outside(reader, token, -0x8000_0000, 0xFFFF_FFFF),
        Width::Bits64 => outside(reader, token, -0x8000_0000_0000_0000, 0xFFFF_FFFF_FFFF_FFFF),
    }
}

// The token, unless the number that it spells lies from 0 to another.
fn above(reader: &Reader, token: u32, high: u32) -> Option<u32>
    ensures { (s : Source) → Reads reader.now s → result ≡ least (unless (is_within (pos 0) (pos high)) s token) }
{
    outside(reader, token, 0, i128::from(high))
}

// The token, unless the number that it spells is that of one of so many.
fn no_place(reader: &Reader, token: u32, count: usize) -> Option<u32>
    ensures { (s : Source) → Reads reader.now s → result ≡ least (unless (is_within (pos 1) (pos count)) s token) }
{
    outside(reader, token, 1, count as i128)
}

// The token, unless the number that it spells keeps within a limit.
fn beyond(reader: &Reader, token: u32, limit: Limit) -> Option<u32>
    ensures { (s : Source) → Reads reader.now s → result ≡ least (unless (keeps_within limit) s token) }
{
    match limit {
        Limit::UpTo(high) => above(reader, token, high),
        Limit::OneOf(count) => no_place(reader, token, count),
        Limit::Fits(width) => outside_width(reader, token, width),
        Limit::Exactly(number) => other_than(reader, token, number),
    }
}

// The token, unless it spells this number.
fn other_than(reader: &Reader, token: u32, number: u64) -> Option<u32>
    ensures { (s : Source) → Reads reader.now s → result ≡ least (unless (is_within (pos number) (pos number)) s token) }
{
    outside(reader, token, i128::from(number), i128::from(number))
}

/// The least of the tokens in second place of the parts of this production whose numbers don't keep within a limit.
pub fn beyond_in_each(
    reader: &Reader,
    nodes: &[TreeNode],
    production: u16,
    limit: Limit,
) -> Option<u32>
    requires { IsForest nodes.now }
    ensures { (s : Source) (f : Forest) → Reads reader.now s → preorder f ≡ nodes.now →
        result ≡ least (flat_map (λ g. unless (keeps_within limit) s (leaf_at 1 g)) (each production f)) }
{
    derivations_are_forests();
    forests_open();
    forests_join();
    let mut left = nodes;
    let mut found = None;
    while let Some((node, rest)) = next(left) {
        match node {
            TreeNode::Branch {
                production: p,
                nodes: count,
            } => {
                if p == production {
                    let (below, after) = rest.split_at(count as usize);
                    let here = beyond(reader, leaf_at(below, 1), limit);
                    found = sooner(found, here);
                    left = after;
                } else {
                    left = rest;
                }
            }
            TreeNode::Leaf { .. } => left = rest,
        }
    }
    found
}

/// The token, unless something holds.
pub fn unless(holds: bool, token: u32) -> Option<u32>
    ensures { result ≡ least (if holds then [] else token ∷ []) }
{
    if holds { None } else { Some(token) }
}

// Whether the number that an INT spells lies from one to another.
fn is_within(reader: &Reader, token: u32, low: i128, high: i128) -> bool
    requires low { distance low < 2 ^ 64 }
    requires high { distance high < 2 ^ 64 }
    ensures { (s : Source) → Reads reader.now s → result ≡ is_within low high (int_at s token) }
{
    match reader.integer(token) {
        Some(value) => lies_within(value, low, high),
        None => false,
    }
}

fn lies_within(value: i128, low: i128, high: i128) -> bool
    ensures { result ≡ is_within low high value }
{
    low <= value && value <= high
}

// Whether the number that an INT spells has no sign and passes the test.
fn is_natural_with(reader: &Reader, token: u32, test: Test) -> bool
    ensures { (s : Source) → Reads reader.now s → result ≡ is_natural_with (test_of test) (int_at s token) }
{
    match natural_32(reader, token) {
        Some(n) => passes(test, n),
        None => false,
    }
}

// The number that an INT spells, where it has no sign and 32 bits.
fn natural_32(reader: &Reader, token: u32) -> Option<u32>
    ensures { (s : Source) → Reads reader.now s → MatchOption result (is_32_bits (int_at s token) ≡ false) (λ n. int_at s token ≡ pos n) }
{
    match reader.integer(token) {
        Some(value) => in_32_bits(value),
        None => None,
    }
}

fn in_32_bits(value: i128) -> Option<u32>
    ensures { MatchOption result (is_32_bits value ≡ false) (λ n. value ≡ pos n) }
{
    if 0 <= value && value <= 0xFFFF_FFFF {
        Some(value as u32)
    } else {
        None
    }
}

fn passes(test: Test, n: u32) -> bool
    ensures { result ≡ test_of test n }
{
    match test {
        Test::ImageBase => n % 0x10000 == 0 && 0x10000 <= n && n <= 0xF000_0000,
        Test::FileAlignment => n == 0x200 || n == 0x400 || n == 0x800 || n == 0x1000,
        Test::CorFlags => n & 1 == 1 && n & 0x10 == 0,
        Test::Implementation => n <= 0xFFFF && n & 7 == 0,
        Test::Pack => is_pack(n),
    }
}

fn is_pack(n: u32) -> bool
    ensures { result ≡ is_pack n }
{
    n == 0 || n == 1 || n == 2 || n == 4 || n == 8 || n == 16 || n == 32 || n == 64 || n == 128
}

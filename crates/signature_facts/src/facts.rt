ghost use Rattle.std.specs.Prelude.{◌≡◌};
ghost use Rattle.type_terms.specs.Order.{prim_place};
ghost use Rattle.signature_facts.specs.Facts.{leaf, joined, node, ranked, listed, inst_tag, mod_tag};

use type_terms::Prim;
use type_terms::hashing::mix;

/// What is told of a type, or of several types (ECMA-335 II.23.2.12). Sums that pass the last number of 32 bits stay there.
#[derive(Clone, Copy)]
pub struct Facts {
    /// How deep the deepest type is: a leaf has depth 1.
    pub depth: u32,
    /// How many nodes there are.
    pub nodes: u32,
    /// The largest rank of an array.
    pub rank: u32,
    /// The weight: 32 for each node, 8 for each size and lower bound, and those of names.
    pub weight: u32,
    /// A hash: equal terms have equal ones.
    pub hash: u64,
}

/// What is told of what a token names.
#[derive(Clone, Copy)]
pub struct OwnerFacts {
    /// It is a plain name. Such a one has no depth and no node.
    pub is_name: bool,
    pub facts: Facts,
}

/// What is told of a method or a property (ECMA-335 II.23.2.1, II.23.2.5).
#[derive(Clone, Copy)]
pub struct MethodFacts {
    /// The number of generic parameters.
    pub generic: u32,
    /// The number of parameters.
    pub params: u32,
    /// A sentinel stands before one of the parameters.
    pub has_sentinel: bool,
    /// Those of the result and of the parameters.
    pub facts: Facts,
}

/// What is told of locals, or of the arguments of a generic method (ECMA-335 II.23.2.6, II.23.2.15).
#[derive(Clone, Copy)]
pub struct ListFacts {
    /// How many types there are.
    pub count: u32,
    pub facts: Facts,
}

/// Nothing, with this hash.
#[tactic(auto, unfolding(crate::specs::Facts::leaf))]
pub(crate) fn leaf(hash: u64) -> Facts
    ensures { result ≡ leaf hash }
{
    Facts {
        depth: 0,
        nodes: 0,
        rank: 0,
        weight: 0,
        hash,
    }
}

/// Those of two things side by side.
#[tactic(auto, unfolding(crate::specs::Facts::joined))]
pub(crate) fn joined(a: Facts, b: Facts) -> Facts
    ensures { result ≡ joined a b }
{
    Facts {
        depth: a.depth.max(b.depth),
        nodes: a.nodes.saturating_add(b.nodes),
        rank: a.rank.max(b.rank),
        weight: a.weight.saturating_add(b.weight),
        hash: mix(a.hash, b.hash),
    }
}

/// A node more around them.
#[tactic(auto, unfolding(crate::specs::Facts::node))]
pub(crate) fn node(of: Facts) -> Facts
    ensures { result ≡ node of }
{
    Facts {
        depth: of.depth.saturating_add(1),
        nodes: of.nodes.saturating_add(1),
        rank: of.rank,
        weight: of.weight.saturating_add(32),
        hash: of.hash,
    }
}

/// The same with a rank.
#[tactic(auto, unfolding(crate::specs::Facts::ranked))]
pub(crate) fn ranked(rank: u32, of: Facts) -> Facts
    ensures { result ≡ ranked rank of }
{
    Facts {
        rank: of.rank.max(rank),
        hash: mix(of.hash, u64::from(rank)),
        ..of
    }
}

/// So many numbers with this hash.
#[tactic(auto, unfolding(crate::specs::Facts::listed))]
pub(crate) fn listed(count: u32, hash: u64) -> Facts
    ensures { result ≡ listed count hash }
{
    Facts {
        depth: 0,
        nodes: 0,
        rank: 0,
        weight: count.saturating_mul(8),
        hash,
    }
}

/// The first byte of a generic type, or one more for a value type.
pub(crate) fn inst_tag(value: bool) -> u64
    ensures { result ≡ inst_tag value }
{
    if value { 0x16 } else { 0x15 }
}

/// The first byte of a modifier.
pub(crate) fn mod_tag(required: bool) -> u64
    ensures { result ≡ mod_tag required }
{
    if required { 0x1F } else { 0x20 }
}

/// The place of a primitive type among them.
pub(crate) fn prim_place(prim: Prim) -> u64
    ensures { result ≡ prim_place prim }
{
    match prim {
        Prim::Void => 0,
        Prim::Bool => 1,
        Prim::Char => 2,
        Prim::I1 => 3,
        Prim::U1 => 4,
        Prim::I2 => 5,
        Prim::U2 => 6,
        Prim::I4 => 7,
        Prim::U4 => 8,
        Prim::I8 => 9,
        Prim::U8 => 10,
        Prim::R4 => 11,
        Prim::R8 => 12,
        Prim::Str => 13,
        Prim::Object => 14,
        Prim::TypedRef => 15,
        Prim::NInt => 16,
        Prim::NUint => 17,
    }
}

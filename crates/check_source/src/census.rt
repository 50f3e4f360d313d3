//! How many nodes of a source have the productions that are asked for, and whether types are long: what a source has none of isn't looked for.

ghost use Rattle.std.specs.Prelude.{◌≡◌, ◌≤◌, ◌<◌, ◌^◌, ◌+◌, ◌==◌, ◌||◌, ◌&&◌, ℕ, nat_lt, slice_index_or, true, false};
ghost use Rattle.std.specs.List.{list_any};
ghost use Rattle.ilasm_grammar.specs.declared.productions.TheConstants.{TYPE};
ghost use Rattle.ilasm_grammar.specs.declared.tree.TreeNode.TheVariants.{Branch};
ghost use Rattle.check_source.specs.Census.{IsCensus, is_asked, is_long, one_of};

use ilasm_grammar::{TreeNode, productions};

// More than the number of any production.
const MOST: usize = 704;

// A bit for each production that is asked for, and for types, by its last six bits.
const MARKS: u64 = 1 << (productions::DECL_MODULE & 63)
    | 1 << (productions::ASSEMBLY_EXTERN & 63)
    | 1 << (productions::ASSEMBLY_ASSEMBLY_ATTR_STAR & 63)
    | 1 << (productions::AT_NAME & 63)
    | 1 << (productions::ITEM_ENTRYPOINT & 63)
    | 1 << (productions::PROPERTY & 63)
    | 1 << (productions::EVENT & 63)
    | 1 << (productions::DATA & 63)
    | 1 << (productions::MEMBER_SIZE & 63)
    | 1 << (productions::DECL_FIELD & 63)
    | 1 << (productions::DECL_METHOD & 63)
    | 1 << (productions::TYPE & 63);

/// How many nodes have each production that is asked for.
#[derive(Drop)]
pub struct Census {
    pub counts: [usize; 704],
    /// Whether there is a type of more than 99 nodes, which may be too deep.
    pub long_types: bool,
}

/// The census of these nodes.
pub fn census_of(nodes: &[TreeNode]) -> Census
    ensures counts { IsCensus nodes.now result }
    ensures long { result.long_types ≡ list_any is_long nodes.now }
{
    let mut census = Census {
        counts: [0; 704],
        long_types: false,
    };
    let mut left = nodes;
    while let [a, b, c, d, e, f, g, h, rest @ ..] = left {
        census.note(*a);
        census.note(*b);
        census.note(*c);
        census.note(*d);
        census.note(*e);
        census.note(*f);
        census.note(*g);
        census.note(*h);
        left = rest;
    }
    while let [node, rest @ ..] = left {
        census.note(*node);
        left = rest;
    }
    census
}

impl Census {
    /// How many nodes have this production, where it is asked for.
    pub fn count(&self, production: u16) -> usize
        requires { production < 704 }
        ensures { result ≡ slice_index_or self.now.counts production 0 }
    {
        self.counts[production as usize]
    }

    // Counts one node more.
    fn note(&mut self, node: TreeNode)
        requires { (p : ℕ) → slice_index_or self.old.counts p 0 < 2 ^ 63 }
        ensures counts { (p : ℕ) → is_asked p ≡ true → slice_index_or self.new.counts p 0 ≡ slice_index_or self.old.counts p 0 + one_of p node }
        ensures few { (p : ℕ) → slice_index_or self.new.counts p 0 ≤ slice_index_or self.old.counts p 0 + 1 }
        ensures long { self.new.long_types ≡ (self.old.long_types || is_long node) }
    {
        if let TreeNode::Branch { production, nodes } = node {
            if is_marked(production) {
                self.note_marked(production, nodes);
            }
        }
    }

    // Counts one node more whose production has a mark.
    #[cold]
    #[inline(never)]
    fn note_marked(&mut self, production: u16, below: u32)
        requires { (p : ℕ) → slice_index_or self.old.counts p 0 < 2 ^ 63 }
        ensures counts { (p : ℕ) → is_asked p ≡ true → slice_index_or self.new.counts p 0 ≡ slice_index_or self.old.counts p 0 + one_of p (Branch production below) }
        ensures few { (p : ℕ) → slice_index_or self.new.counts p 0 ≤ slice_index_or self.old.counts p 0 + 1 }
        ensures long { self.new.long_types ≡ (self.old.long_types || is_long (Branch production below)) }
    {
        self.long_types = either(self.long_types, production, below);
        let place = production as usize;
        if place < MOST {
            self.counts[place] += 1;
        }
    }
}

// Whether a production may be one that is asked for, or a type.
fn is_marked(production: u16) -> bool
    ensures asked { result ≡ false → is_asked production ≡ false }
    ensures types { result ≡ false → (production == TYPE) ≡ false }
{
    MARKS >> (production & 63) & 1 == 1
}

// Whether there was a long type, or this production with so many nodes below it is one.
fn either(before: bool, production: u16, below: u32) -> bool
    ensures { result ≡ (before || (production == TYPE && nat_lt 98 below)) }
{
    before || production == productions::TYPE && below > 98
}

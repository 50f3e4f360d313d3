//! Types that are deeper than 100 (ECMA-335 II.7.1, II.23.2.7, II.23.2.12).

ghost use Rattle.std.specs.Prelude.{◌≡◌, ℕ, [], ◌∷◌, max, min, map};
ghost use Rattle.type_terms.specs.Depth.{depth, largest};
ghost use Rattle.type_terms.specs.declared.term.SigType.{SigType};
ghost use Rattle.ilasm_grammar.specs.declared.productions.TheConstants.{TYPE};
ghost use Rattle.ilasm_grammar.specs.declared.tree.TreeNode.TheVariants.{Branch};
ghost use Rattle.source_model.specs.Forest.{Forest, parts_outside, preorder};
ghost use Rattle.source_model.specs.Nodes.{Around};
ghost use Rattle.source_model.specs.OutOfRange.{types_too_deep};
ghost use Rattle.source_model.specs.Source.{Source};
ghost use Rattle.source_model.specs.TypeRules.{type_too_deep};
ghost use Rattle.source_model.specs.Types.{owners_in, suffix, suffixed, suffixes, type_of, types_in};
ghost use Rattle.source_nodes.specs.Derived.{FitsBody, HasBodies};
ghost use Rattle.source_nodes.specs.Least.{least, sooner};
ghost use Rattle.source_nodes.specs.Readers.{Reads};
ghost use Rattle.source_syntax.specs.Suffixes.{is_suffix};
ghost use Rattle.source_nodes.specs.Walk.{IsForest};
ghost use Rattle.check_visitor.specs.Surroundings.{found_in};
ghost use Rattle.check_names.specs.TypeDepths.{AreDepths, base_depth, is_modifier, modifier_depth, own_token};

use check_visitor::asking::deeper;
use ilasm_grammar::TreeNode;
use ilasm_grammar::productions::{
    SPEC_TYPE, TYPE, TYPE_BASE_CLASS, TYPE_BASE_VALUETYPE, TYPE_SUFFIX_AMPERSAND,
    TYPE_SUFFIX_BRACKET, TYPE_SUFFIX_MODOPT, TYPE_SUFFIX_MODREQ, TYPE_SUFFIX_PINNED,
    TYPE_SUFFIX_STAR,
};
use source_model::forests_join;
use source_nodes::derived::derivations_have_bodies;
use source_nodes::least::sooner;
use source_nodes::reader::Reader;
use source_nodes::walk::{child, first_token, is_of, open};

// The most that a type may be deep.
const MOST: u8 = 100;

/// How deep a type is, or the deepest of several, up to 101; and the least first token of those of them, and of the types in
/// them, that are deeper than 100.
#[derive(Debug, Clone, Copy, Drop)]
pub struct Depths {
    pub depth: u8,
    pub broken: Option<u32>,
}

/// The least first token of a type that is deeper than 100.
pub fn type_too_deep(reader: &Reader) -> Option<u32>
    requires { IsForest reader.now.nodes.now }
    ensures { (s : Source) → Reads reader.now s → result ≡ least (types_too_deep s) }
{
    derivations_have_bodies();
    let all = depths_in(reader.nodes);
    all.broken
}

// The depths of the types in a forest.
#[cycle(depths)]
fn depths_in(nodes: &[TreeNode]) -> Depths
    requires { IsForest nodes.now }
    ensures { (s : Source) (a : Around) (f : Forest) → preorder f ≡ nodes.now → HasBodies s f →
        AreDepths s a f (largest (map depth (types_in s a f))) result }
{
    forests_join();
    let mut all = Depths {
        depth: 0,
        broken: None,
    };
    let mut left = nodes;
    while let Some(x) = open(left) {
        if is_of(x.node, TYPE) {
            let of = depths_of(x.below);
            all = with_type(all, of, first_token(x.below));
            left = x.after;
        } else {
            left = x.behind;
        }
    }
    all
}

/// The depth of a type, from what stands below its production, and what is found in it.
#[cycle(depths)]
pub fn depths_of(nodes: &[TreeNode]) -> Depths
    requires { IsForest nodes.now }
    ensures { (s : Source) (a : Around) (f : Forest) → preorder f ≡ nodes.now → FitsBody s TYPE f → HasBodies s f →
        AreDepths s a f (depth (type_of s a f)) result }
{
    let Some(x) = open(nodes) else {
        return Depths {
            depth: 1,
            broken: None,
        };
    };
    let TreeNode::Branch { production, .. } = x.node else {
        return Depths {
            depth: 1,
            broken: None,
        };
    };
    let args = depths_in(x.below);
    let base = Depths {
        depth: base_depth(production, args.depth),
        broken: args.broken,
    };
    suffixed_depths(x.after, base)
}

// The depth of a type with the suffixes that stand in a forest, and what is found in all of it.
#[cycle(depths)]
fn suffixed_depths(nodes: &[TreeNode], base: Depths) -> Depths
    requires { IsForest nodes.now }
    ensures { (s : Source) (a : Around) (f : Forest) → preorder f ≡ nodes.now → HasBodies s f → parts_outside suffixes (TYPE ∷ []) f ≡ [] →
        (t : SigType) → base.depth ≡ min (depth t) 101 →
        (result.depth ≡ min (depth (suffixed s a f t)) 101) × (result.broken ≡ sooner base.broken (least (found_in type_too_deep s a f))) }
{
    forests_join();
    let mut of = base;
    let mut left = nodes;
    while let Some(x) = open(left) {
        if is_suffix(x.node) {
            let by = depths_in(x.below);
            of = with_suffix(x.node, x.below, by, of);
            left = x.after;
        } else {
            left = x.behind;
        }
    }
    of
}

// Some types with one more, which begins at this token.
fn with_type(all: Depths, of: Depths, token: u32) -> Depths
    ensures depth { result.depth ≡ max all.depth of.depth }
    ensures broken { result.broken ≡ sooner all.broken (sooner (own_token of.depth token) of.broken) }
{
    let own = own_token(of.depth, token);
    Depths {
        depth: all.depth.max(of.depth),
        broken: sooner(all.broken, sooner(own, of.broken)),
    }
}

// The token of a type that is too deep.
fn own_token(depth: u8, token: u32) -> Option<u32>
    ensures { result ≡ own_token depth token }
{
    if depth > MOST { Some(token) } else { None }
}

// The depth of a base, from that of its deepest generic argument.
fn base_depth(production: u16, deepest: u8) -> u8
    ensures { (d : ℕ) → deepest ≡ min d 101 → result ≡ min (base_depth production d) 101 }
{
    match production {
        TYPE_BASE_CLASS | TYPE_BASE_VALUETYPE => deeper(deepest),
        _ => 1,
    }
}

// A type with a suffix around it, in which these types stand.
fn with_suffix(node: TreeNode, below: &[TreeNode], by: Depths, of: Depths) -> Depths
    requires { IsForest below.now }
    ensures depth { (s : Source) (a : Around) (f : Forest) (p count : ℕ) → node ≡ Branch p count → preorder f ≡ below.now → FitsBody s p f → HasBodies s f →
        by.depth ≡ min (largest (map depth (types_in s a f))) 101 → (t : SigType) → of.depth ≡ min (depth t) 101 →
        result.depth ≡ min (depth (suffix s p f (owners_in s a f) t)) 101 }
    ensures broken { result.broken ≡ sooner of.broken by.broken }
{
    let modifier = modifier_depth(node, below, by.depth);
    Depths {
        depth: deeper(of.depth.max(modifier)),
        broken: sooner(of.broken, by.broken),
    }
}

// The depth of a modifier's owner, from that of the types that stand in it.
fn modifier_depth(node: TreeNode, below: &[TreeNode], deepest: u8) -> u8
    requires { IsForest below.now }
    ensures { (s : Source) (a : Around) (f : Forest) (p count : ℕ) → node ≡ Branch p count → preorder f ≡ below.now → FitsBody s p f → HasBodies s f →
        deepest ≡ min (largest (map depth (types_in s a f))) 101 → result ≡ min (modifier_depth s a p f) 101 }
{
    if !is_modifier(node) {
        return 0;
    }
    if child(below, SPEC_TYPE).is_empty() {
        return 0;
    }
    deepest
}

/// Whether a node is a suffix that is a modifier.
pub fn is_modifier(node: TreeNode) -> bool
    ensures { (p count : ℕ) → node ≡ Branch p count → result ≡ is_modifier p }
{
    is_of(node, TYPE_SUFFIX_MODREQ) || is_of(node, TYPE_SUFFIX_MODOPT)
}

/// Whether a node is a suffix of a type.
pub fn is_suffix(node: TreeNode) -> bool
    ensures { result ≡ is_suffix node }
{
    is_of(node, TYPE_SUFFIX_BRACKET)
        || is_of(node, TYPE_SUFFIX_AMPERSAND)
        || is_of(node, TYPE_SUFFIX_STAR)
        || is_of(node, TYPE_SUFFIX_PINNED)
        || is_of(node, TYPE_SUFFIX_MODREQ)
        || is_of(node, TYPE_SUFFIX_MODOPT)
}

//! The productions of a source, each with what stands around its parts, and rules that are asked of each of them.

ghost use Rattle.std.specs.Prelude.{◌≡◌, ◌==◌, ◌<◌, ◌≤◌, ◌^◌, ℕ, ◌+◌, [], List, false, length, min, take, true, IfOk, MatchOption};
ghost use Rattle.std.specs.List.{AllByRecursion, flat_map};
ghost use Rattle.ilasm_grammar.specs.declared.productions.TheConstants.{CLASS};
ghost use Rattle.source_model.specs.Forest.{Forest, preorder};
ghost use Rattle.source_model.specs.Nodes.{Around, Node, entered, nodes, nothing_around, typar_names};
ghost use Rattle.source_model.specs.Parameters.{parameters};
ghost use Rattle.source_model.specs.Source.{Source};
ghost use Rattle.source_nodes.specs.Least.{least};
ghost use Rattle.source_nodes.specs.Derived.{HasBodies};
ghost use Rattle.check_visitor.specs.Surroundings.{found_in, is_scope, HasParameters, IsDerived, IsNode, IsQuiet, IsSurrounding, PassesQuiet};
ghost use Rattle.source_nodes.specs.Readers.{Reads};
ghost use Rattle.source_nodes.specs.Walk.{IsForest};

use crate::counts::count_each;
use il_base::{Boxed, NoMemory};
use ilasm_grammar::{TreeNode, productions};
use source_model::{derivations_are_forests, forests_join, forests_open};
use source_nodes::derived::derivations_have_bodies;
use source_nodes::least::sooner;
use source_nodes::reader::Reader;
use source_nodes::walk::{child, next};
use source_syntax::declared::Declared;
use source_syntax::name_lists::typar_names;
use std::alloc::Global;

/// What stands around a place: the number of the classes that it is in, counted up to 101, the nodes below the innermost of
/// them, and those below the method. Outside of any class or method these are none.
#[derive(Clone, Copy)]
pub struct Surrounding<'n, 't> {
    pub depth: u8,
    pub class: &'n [TreeNode],
    pub method: &'n [TreeNode],
    /// The names of the generic parameters of that class and of that method.
    pub class_typars: &'t Declared,
    pub method_typars: &'t Declared,
    /// How many parameters the method has.
    pub parameters: usize,
}

// What a class or a method adds to what stands around its parts: the names of the generic parameters of the class around it,
// those of its own, an empty list of names for what has none, and how many parameters it has, where it is a method.
#[derive(Clone, Copy)]
struct Own<'t> {
    class_typars: &'t Declared,
    typars: &'t Declared,
    none: &'t Declared,
    parameters: usize,
}

/// A rule that each production of a source meets or breaks by itself.
pub trait Rule {
    ghost use Rattle.std.specs.Prelude.{◌≡◌, ℕ, List, None, false};
    ghost use Rattle.source_model.specs.Nodes.{Node};
    ghost use Rattle.source_model.specs.Source.{Source};
    ghost use Rattle.source_nodes.specs.Least.{least};
    ghost use Rattle.check_visitor.specs.Surroundings.{is_scope};

    /// The tokens at which a production breaks it.
    ghost broken: { Self → Source → Node → List ℕ };

    /// Whether a node with this production may break it, or is a class or a method: of others it isn't asked.
    fn speaks_of(&self, _production: u16) -> bool
        ensures asked { (s : Source) (n : Node) → n.production ≡ _production → result ≡ false → None ≡ least (broken self.now s n) }
        ensures scopes { result ≡ false → is_scope _production ≡ false }
    {
        true
    }

    /// The least token at which this production breaks it.
    fn first(
        &self,
        alloc: Global,
        reader: &Reader,
        place: &Surrounding,
        production: u16,
        below: &[TreeNode],
    ) -> Result<Option<u32>, NoMemory>
        requires { IsForest below.now }
        ensures { (s : Source) (n : Node) → Reads reader.now s → IsNode place.now production below.now n → IsDerived s place.now n →
            IfOk result (λ k. k ≡ least (broken self.now s n)) };
}

/// The least token at which a production among these nodes breaks a rule.
pub fn first_in<'n, R: Rule>(
    rule: &R,
    alloc: Global,
    reader: &Reader,
    place: &Surrounding<'n, '_>,
    nodes: &'n [TreeNode],
) -> Result<Option<u32>, NoMemory>
    requires { IsForest nodes.now }
    ensures { (s : Source) (a : Around) (f : Forest) → Reads reader.now s → IsSurrounding place.now a → preorder f ≡ nodes.now → HasBodies s f → HasParameters s place.now a →
        IfOk result (λ k. k ≡ least (found_in (R.broken rule.now) s a f)) }
{
    let none = Declared::new(alloc);
    let first = first_among(rule, alloc, reader, place, &none, nodes)?;
    Ok(first)
}

// The same, with an empty list of names.
fn first_among<'n, R: Rule>(
    rule: &R,
    alloc: Global,
    reader: &Reader,
    place: &Surrounding<'n, '_>,
    none: &Declared,
    nodes: &'n [TreeNode],
) -> Result<Option<u32>, NoMemory>
    requires { IsForest nodes.now }
    ensures { (s : Source) (a : Around) (f : Forest) → none.now ≡ [] → Reads reader.now s → IsSurrounding place.now a → preorder f ≡ nodes.now → HasBodies s f → HasParameters s place.now a →
        IfOk result (λ k. k ≡ least (found_in (R.broken rule.now) s a f)) }
{
    derivations_are_forests();
    forests_open();
    forests_join();
    let mut left = nodes;
    let mut found = None;
    while let Some((node, rest)) = next(past_quiet(rule, left)) {
        match node {
            TreeNode::Branch {
                production,
                nodes: count,
            } => {
                let (below, after) = rest.split_at(count as usize);
                if is_scope(production) {
                    let typars = own_typars(alloc, reader, below)?;
                    let parameters = parameters_in(production, below);
                    let own = Own {
                        class_typars: place.class_typars,
                        typars: names_or(&typars, none),
                        none,
                        parameters,
                    };
                    let inner = entered(place, production, below, &own);
                    let here = rule.first(alloc, reader, &inner, production, below)?;
                    let within = first_among(rule, alloc, reader, &inner, none, below)?;
                    found = sooner(found, sooner(here, within));
                    left = after;
                } else {
                    let here = rule.first(alloc, reader, place, production, below)?;
                    found = sooner(found, here);
                    left = rest;
                }
            }
            TreeNode::Leaf { .. } => left = rest,
        }
    }
    Ok(found)
}

// What stands behind the tokens and the productions at the front of which the rule doesn't speak.
#[inline(never)]
fn past_quiet<'n, R: Rule>(rule: &R, nodes: &'n [TreeNode]) -> &'n [TreeNode]
    ensures { PassesQuiet (R.broken rule.now) nodes.now result.now }
{
    let mut left = nodes;
    while left.len() >= 8 {
        let quiet = quiet_of_eight(rule, left);
        let (_, behind) = left.split_at(quiet);
        if quiet < 8 {
            return behind;
        }
        left = behind;
    }
    while let [node, rest @ ..] = left {
        if !is_quiet(rule, node) {
            return left;
        }
        left = rest;
    }
    left
}

// How many of the first eight nodes they are.
fn quiet_of_eight<R: Rule>(rule: &R, nodes: &[TreeNode]) -> usize
    requires { 8 ≤ length nodes.now }
    ensures most { result ≤ 8 }
    ensures quiet { AllByRecursion (IsQuiet (R.broken rule.now)) (take result nodes.now) }
{
    let [a, b, c, d, e, f, g, h, ..] = nodes else {
        return 0;
    };
    if !is_quiet(rule, a) {
        0
    } else if !is_quiet(rule, b) {
        1
    } else if !is_quiet(rule, c) {
        2
    } else if !is_quiet(rule, d) {
        3
    } else if !is_quiet(rule, e) {
        4
    } else if !is_quiet(rule, f) {
        5
    } else if !is_quiet(rule, g) {
        6
    } else if !is_quiet(rule, h) {
        7
    } else {
        8
    }
}

// Whether a node is a token, or has a production of which the rule doesn't speak.
fn is_quiet<R: Rule>(rule: &R, node: &TreeNode) -> bool
    ensures { result ≡ true → IsQuiet (R.broken rule.now) node.now }
{
    match node {
        TreeNode::Branch { production, .. } => !rule.speaks_of(*production),
        TreeNode::Leaf { .. } => true,
    }
}

// The names of the generic parameters of a class or a method that may have some.
fn own_typars(
    alloc: Global,
    reader: &Reader,
    below: &[TreeNode],
) -> Result<Option<Boxed<Declared>>, NoMemory>
    requires { IsForest below.now }
    ensures { (s : Source) (f : Forest) → Reads reader.now s → preorder f ≡ below.now → HasBodies s f →
        IfOk result (λ names. MatchOption names (typar_names s f ≡ []) (λ some. some ≡ typar_names s f)) }
{
    forests_open();
    if child(below, productions::TYPARS_OPT_SOME).is_empty() {
        return Ok(None);
    }
    let names = boxed_typars(alloc, reader, below)?;
    Ok(Some(names))
}

// The same in a box, since most classes and methods have none.
#[inline(never)]
fn boxed_typars(
    alloc: Global,
    reader: &Reader,
    below: &[TreeNode],
) -> Result<Boxed<Declared>, NoMemory>
    requires { IsForest below.now }
    ensures { (s : Source) (f : Forest) → Reads reader.now s → preorder f ≡ below.now → HasBodies s f → IfOk result (λ names. names ≡ typar_names s f) }
{
    let names = typar_names(alloc, reader, below)?;
    let boxed = Boxed::new(alloc, names)?;
    Ok(boxed)
}

// The names, or where there are none an empty list.
fn names_or<'t>(names: &'t Option<Boxed<Declared>>, none: &'t Declared) -> &'t Declared
    ensures { (wanted : List (List ℕ)) → none.now ≡ [] → MatchOption names.now (wanted ≡ []) (λ some. some ≡ wanted) → result.now ≡ wanted }
{
    match names {
        Some(names) => names.get(),
        None => none,
    }
}

// Whether the parts of this production have other things around them than it has.
fn is_scope(production: u16) -> bool
    ensures { result ≡ is_scope production }
{
    production == productions::CLASS || production == productions::METHOD
}

/// How many parameters a method has.
pub fn count_parameters(below: &[TreeNode]) -> usize
    requires { IsForest below.now }
    ensures { (f : Forest) → preorder f ≡ below.now → result ≡ length (parameters f) }
{
    let parameters = child(below, productions::DEF_ARGS_OPT_SOME);
    count_each(parameters, productions::DEF_ARG)
}

// How many parameters a class or a method has, where it is a method; of a class this isn't asked.
fn parameters_in(production: u16, below: &[TreeNode]) -> usize
    requires { IsForest below.now }
    ensures { (f : Forest) → preorder f ≡ below.now → (production == CLASS) ≡ false → result ≡ length (parameters f) }
{
    if production == productions::CLASS {
        return 0;
    }
    count_parameters(below)
}

// What stands around the parts of a class or a method.
fn entered<'n, 't>(
    place: &Surrounding<'n, '_>,
    production: u16,
    below: &'n [TreeNode],
    own: &Own<'t>,
) -> Surrounding<'n, 't>
    requires { is_scope production ≡ true }
    ensures around { (s : Source) (a : Around) (f : Forest) → IsSurrounding place.now a → preorder f ≡ below.now → IsSurrounding result (entered s a production f) }
    ensures parameters { (s : Source) (a : Around) (f : Forest) → HasParameters s place.now a → own.now.class_typars.now ≡ typar_names s a.class → own.now.typars.now ≡ typar_names s f → own.now.none.now ≡ [] →
        ((production == CLASS) ≡ false → own.now.parameters ≡ length (parameters f)) → length (typar_names s f) < 2 ^ 32 → HasParameters s result (entered s a production f) }
{
    if production == productions::CLASS {
        Surrounding {
            depth: deeper(place.depth),
            class: below,
            method: &[],
            class_typars: own.typars,
            method_typars: own.none,
            parameters: 0,
        }
    } else {
        Surrounding {
            depth: place.depth,
            class: place.class,
            method: below,
            class_typars: own.class_typars,
            method_typars: own.typars,
            parameters: own.parameters,
        }
    }
}

/// One more, up to 101.
pub fn deeper(depth: u8) -> u8
    ensures { (n : ℕ) → depth ≡ min n 101 → result ≡ min (n + 1) 101 }
{
    if depth < 101 { depth + 1 } else { 101 }
}

/// The least token at which a production of a source breaks a rule.
#[tactic(auto, unfolding(source_model::specs::Nodes::nodes))]
pub fn first_at_all<R: Rule>(
    rule: &R,
    alloc: Global,
    reader: &Reader,
) -> Result<Option<u32>, NoMemory>
    requires { IsForest reader.now.nodes.now }
    ensures { (s : Source) → Reads reader.now s → IfOk result (λ k. k ≡ least (flat_map (R.broken rule.now s) (nodes s))) }
{
    derivations_have_bodies();
    let first = first_outside(rule, alloc, reader, reader.nodes)?;
    Ok(first)
}

/// The least token at which a production among these nodes, which stand in no class and no method, breaks a rule.
pub fn first_outside<R: Rule>(
    rule: &R,
    alloc: Global,
    reader: &Reader,
    nodes: &[TreeNode],
) -> Result<Option<u32>, NoMemory>
    requires { IsForest nodes.now }
    ensures { (s : Source) (f : Forest) → Reads reader.now s → preorder f ≡ nodes.now → HasBodies s f →
        IfOk result (λ k. k ≡ least (found_in (R.broken rule.now) s nothing_around f)) }
{
    let none = Declared::new(alloc);
    let outside = Surrounding {
        depth: 0,
        class: &[],
        method: &[],
        class_typars: &none,
        method_typars: &none,
        parameters: 0,
    };
    let first = first_among(rule, alloc, reader, &outside, &none, nodes)?;
    Ok(first)
}

//! The names of declarations, and those of them that stand there twice.

ghost use Rattle.std.specs.Prelude.{◌≡◌, ℕ, [], ◌∷◌, ◌++◌, All, IfOk, List, MatchOption, bytes_eq, map};
ghost use Rattle.il_lexer.specs.declared.types.TokenKind.TheVariants as kind;
ghost use Rattle.source_model.specs.DeclaredTwice.{data_twice, externs_twice, repeats};
ghost use Rattle.source_model.specs.Forest.{Forest, preorder};
ghost use Rattle.source_model.specs.Names.{key_token};
ghost use Rattle.source_model.specs.Nodes.{typar_names};
ghost use Rattle.source_model.specs.Source.{Source};
ghost use Rattle.source_model.specs.Values.{name_text};
ghost use Rattle.source_nodes.specs.Derived.{HasBodies};
ghost use Rattle.source_nodes.specs.Least.{least};
ghost use Rattle.source_syntax.specs.Namings.{AreNames, names_in, production_of, tokens_named};
ghost use Rattle.source_nodes.specs.Readers.{IsOf, Reads};
ghost use Rattle.source_syntax.specs.declared.name_lists.Naming.TheVariants as naming;
ghost use Rattle.source_nodes.specs.Walk.{IsForest};

use crate::declared::Declared;
use crate::labels::put_name;
use il_base::{Items, NoMemory};
use ilasm_grammar::TreeNode;
use ilasm_grammar::productions::{
    ALIAS, ASSEMBLY_ASSEMBLY_ATTR_STAR, ASSEMBLY_EXTERN, DATA, DATA_LABEL, SLASH_NAME, TYPAR,
    TYPARS_OPT_SOME,
};
use source_model::{forests_join, forests_open};
use source_nodes::derived::derivations_have_bodies;
use source_nodes::least::sooner;
use source_nodes::reader::Reader;
use source_nodes::walk::{child, count_below, cut, has, is_of, leaf_at, next, the};
use std::alloc::Global;

/// Declarations that have names.
#[derive(Debug, Clone, Copy, PartialEq, Eq, Drop)]
pub enum Naming {
    /// Those of other assemblies, by their aliases, or else by their names.
    Assembly,
    /// Those of data with a label, by that.
    Label,
    /// Those of generic parameters.
    Typar,
    /// The names of a path behind its first.
    Slash,
    /// Those of this assembly.
    Own,
}

/// The names of declarations, in order, with their tokens.
#[derive(Drop)]
pub struct Named {
    pub tokens: Items<u32>,
    pub names: Declared,
}

/// The names of all such declarations of a source.
pub fn collect(alloc: Global, reader: &Reader, naming: Naming) -> Result<Named, NoMemory>
    requires { IsForest reader.now.nodes.now }
    ensures { (s : Source) → Reads reader.now s → IfOk result (λ n. AreNames s naming n) }
{
    derivations_have_bodies();
    let tokens = name_tokens(alloc, reader.nodes, naming)?;
    let names = texts(alloc, reader, tokens.as_slice())?;
    Ok(Named { tokens, names })
}

/// The least name of another assembly that is that of an earlier one (ECMA-335 II.6.3).
pub fn assembly_again(externs: &Named) -> Option<u32>
    ensures { (s : Source) → AreNames s naming.Assembly externs.now → result ≡ least (externs_twice s) }
{
    again(&externs.names, externs.tokens.as_slice())
}

/// The least label of data that is that of earlier data (ECMA-335 II.16.3).
pub fn label_again(labels: &Named) -> Option<u32>
    ensures { (s : Source) → AreNames s naming.Label labels.now → result ≡ least (data_twice s) }
{
    again(&labels.names, labels.tokens.as_slice())
}

/// The names of the generic parameters of a class or a method.
pub fn typar_names(alloc: Global, reader: &Reader, below: &[TreeNode]) -> Result<Declared, NoMemory>
    requires { IsForest below.now }
    ensures { (s : Source) (f : Forest) → Reads reader.now s → preorder f ≡ below.now → HasBodies s f → IfOk result (λ names. names ≡ typar_names s f) }
{
    let typars = child(below, TYPARS_OPT_SOME);
    if typars.is_empty() {
        return Ok(Declared::new(alloc));
    }
    let tokens = name_tokens(alloc, typars, Naming::Typar)?;
    let names = texts(alloc, reader, tokens.as_slice())?;
    Ok(names)
}

/// The tokens of the names of such declarations.
pub fn name_tokens(
    alloc: Global,
    nodes: &[TreeNode],
    naming: Naming,
) -> Result<Items<u32>, NoMemory>
    requires { IsForest nodes.now }
    ensures { (f : Forest) → preorder f ≡ nodes.now → IfOk result (λ found. found ≡ names_in naming f) }
{
    forests_open();
    forests_join();
    let production = production(naming);
    let mut found = Items::new(alloc);
    let mut left = nodes;
    while let Some((node, rest)) = next(left) {
        let count = count_below(node);
        if is_of(node, production) {
            let (below, after) = cut(rest, count);
            push_name(&mut found, naming, below)?;
            left = after;
        } else {
            left = rest;
        }
    }
    Ok(found)
}

fn production(naming: Naming) -> u16
    ensures { result ≡ production_of naming }
{
    match naming {
        Naming::Assembly => ASSEMBLY_EXTERN,
        Naming::Label => DATA,
        Naming::Typar => TYPAR,
        Naming::Slash => SLASH_NAME,
        Naming::Own => ASSEMBLY_ASSEMBLY_ATTR_STAR,
    }
}

// Adds the token of a declaration's name, where it has one.
fn push_name(found: &mut Items<u32>, naming: Naming, below: &[TreeNode]) -> Result<(), NoMemory>
    requires { IsForest below.now }
    ensures { (f : Forest) → preorder f ≡ below.now → IfOk result (λ _. found.new ≡ found.old ++ tokens_named naming f) }
{
    match naming {
        Naming::Assembly => found.push(key_token(below)),
        Naming::Label => push_label(found, below),
        Naming::Typar | Naming::Own => found.push(leaf_at(below, 0)),
        Naming::Slash => found.push(leaf_at(below, 1)),
    }
}

fn push_label(found: &mut Items<u32>, below: &[TreeNode]) -> Result<(), NoMemory>
    requires { IsForest below.now }
    ensures { (f : Forest) → preorder f ≡ below.now → IfOk result (λ _. found.new ≡ found.old ++ tokens_named naming.Label f) }
{
    if has(below, DATA_LABEL) {
        found.push(leaf_at(the(below, DATA_LABEL), 0))
    } else {
        Ok(())
    }
}

// The token of the key by which an assembly is named.
fn key_token(nodes: &[TreeNode]) -> u32
    requires { IsForest nodes.now }
    ensures { (f : Forest) → preorder f ≡ nodes.now → result ≡ key_token f }
{
    if has(nodes, ALIAS) {
        leaf_at(the(nodes, ALIAS), 1)
    } else {
        leaf_at(nodes, 1)
    }
}

/// The texts of names.
pub fn texts(alloc: Global, reader: &Reader, tokens: &[u32]) -> Result<Declared, NoMemory>
    ensures { (s : Source) → Reads reader.now s → All (IsOf s kind.Name) tokens.now → IfOk result (λ names. names ≡ map (name_text s) tokens.now) }
{
    let mut names = Declared::with_room(alloc, tokens.len())?;
    let mut more = tokens.len();
    while more > 0 {
        more -= 1;
        put_name(alloc, &mut names, reader, tokens[more])?;
    }
    Ok(names)
}

/// The least token whose name is one that stands before it.
pub fn again(names: &Declared, tokens: &[u32]) -> Option<u32>
    ensures { (text : ℕ → List ℕ) → names.now ≡ map text tokens.now → result ≡ least (repeats (λ j k. bytes_eq (text j) (text k)) tokens.now) }
{
    let mut found = None;
    let mut k = 0;
    while k < tokens.len() && k < names.len() {
        if names.is_repeat(k) {
            found = sooner(found, Some(tokens[k]));
        }
        k += 1;
    }
    found
}

//! The labels of a method, and the names that stand for them (ECMA-335 II.5.4, II.15.4.1).

ghost use Rattle.std.specs.Prelude.{◌≡◌, ◌∷◌, ◌++◌, [], map, IfOk, MatchOption, OnOk};
ghost use Rattle.il_lexer.specs.declared.types.TokenKind.TheVariants.{Name};
ghost use Rattle.source_model.specs.BodyFaults.{label_names, label_names_in};
ghost use Rattle.source_model.specs.Forest.{Forest, Part, preorder};
ghost use Rattle.source_model.specs.Instructions.{labels, names_in, targets};
ghost use Rattle.source_model.specs.Source.{Source};
ghost use Rattle.source_model.specs.Values.{name_text};
ghost use Rattle.source_syntax.specs.Labels.{switch_names};
ghost use Rattle.source_syntax.specs.Methods.{AreNames};
ghost use Rattle.source_nodes.specs.Readers.{IsOf, Reads};
ghost use Rattle.source_nodes.specs.Walk.{IsForest};

use crate::declared::Declared;
use il_base::{Items, NoMemory};
use ilasm_grammar::{TreeNode, productions};
use source_nodes::pieces::{Sought, leaves_at, nodes_of, pieces_of};
use source_nodes::reader::Reader;
use source_nodes::walk::leaf_at;
use std::alloc::Global;

/// The labels of a method in order, each by the token of its name.
pub fn label_tokens(alloc: Global, nodes: &[TreeNode]) -> Result<Items<u32>, NoMemory>
    requires { IsForest nodes.now }
    ensures { IfOk result (λ tokens. (f : Forest) → preorder f ≡ nodes.now → tokens ≡ labels f) }
{
    let found = pieces_of(alloc, nodes, Sought::One(productions::ITEM_NAME))?;
    let tokens = leaves_at(alloc, nodes, found.as_slice(), 0)?;
    Ok(tokens)
}

/// The names that these tokens are.
pub fn names_at(alloc: Global, reader: &Reader, tokens: &[u32]) -> Result<Declared, NoMemory>
    ensures { (s : Source) → Reads reader.now s → AreNames s tokens.now → IfOk result (λ names. names ≡ map (name_text s) tokens.now) }
{
    let mut names = Declared::with_room(alloc, tokens.len())?;
    let mut left = tokens;
    while let Some((token, before)) = last(left) {
        put_name(alloc, &mut names, reader, token)?;
        left = before;
    }
    Ok(names)
}

/// Puts the name that a token is in front of others.
pub fn put_name(
    alloc: Global,
    names: &mut Declared,
    reader: &Reader,
    token: u32,
) -> Result<(), NoMemory>
    ensures { (s : Source) → Reads reader.now s → IsOf s Name token → OnOk result (names.new ≡ name_text s token ∷ names.old) }
{
    if let Some(text) = reader.plain_name(token) {
        names.push_text(text)?;
        return Ok(());
    }
    let name = reader.name_text(alloc, token)?;
    names.push_front(name)?;
    Ok(())
}

// The last token and those before it, where there is one.
fn last(tokens: &[u32]) -> Option<(u32, &[u32])>
    ensures { MatchOption result (tokens.now ≡ []) (λ step. tokens.now ≡ step.1.now ++ step.0 ∷ []) }
{
    match tokens {
        [] => None,
        [before @ .., token] => Some((*token, before)),
    }
}

/// The names that stand for labels in a method, in order.
pub fn label_names(alloc: Global, nodes: &[TreeNode]) -> Result<Items<u32>, NoMemory>
    requires { IsForest nodes.now }
    ensures { IfOk result (λ tokens. (f : Forest) → preorder f ≡ nodes.now → tokens ≡ label_names f) }
{
    let found = pieces_of(alloc, nodes, Sought::LabelNames)?;
    let mut tokens = Items::new(alloc);
    for piece in found.as_slice() {
        let below = nodes_of(nodes, *piece);
        push_label_names(alloc, &mut tokens, piece.production, below)?;
    }
    Ok(tokens)
}

// Pushes the names that stand for labels in a production.
fn push_label_names(
    alloc: Global,
    tokens: &mut Items<u32>,
    production: u16,
    below: &[TreeNode],
) -> Result<(), NoMemory>
    requires { IsForest below.now }
    ensures { (p : Part) → p.production ≡ production → preorder p.below ≡ below.now → OnOk result (tokens.new ≡ tokens.old ++ label_names_in p) }
{
    match production {
        productions::TRY_RANGE_NAME => {
            tokens.push(leaf_at(below, 0))?;
            tokens.push(leaf_at(below, 2))
        }
        productions::HANDLER_HANDLER => {
            tokens.push(leaf_at(below, 1))?;
            tokens.push(leaf_at(below, 3))
        }
        productions::FILTER_START_NAME => tokens.push(leaf_at(below, 0)),
        _ => push_targets(alloc, tokens, production, below),
    }
}

/// Pushes the labels that an instruction branches to.
pub fn push_targets(
    alloc: Global,
    tokens: &mut Items<u32>,
    production: u16,
    below: &[TreeNode],
) -> Result<(), NoMemory>
    requires { IsForest below.now }
    ensures { (p : Part) → p.production ≡ production → preorder p.below ≡ below.now → OnOk result (tokens.new ≡ tokens.old ++ targets p) }
{
    match production {
        productions::INSTRUCTION_OP_BRANCH => tokens.push(leaf_at(below, 0)),
        productions::INSTRUCTION_SWITCH => push_switch_names(alloc, tokens, below),
        _ => Ok(()),
    }
}

// Pushes the names in the parentheses of `switch`.
fn push_switch_names(
    alloc: Global,
    tokens: &mut Items<u32>,
    below: &[TreeNode],
) -> Result<(), NoMemory>
    requires { IsForest below.now }
    ensures { (f : Forest) → preorder f ≡ below.now → OnOk result (tokens.new ≡ tokens.old ++ switch_names f) }
{
    let lists = pieces_of(alloc, below, Sought::One(productions::NAMES))?;
    for list in lists.as_slice() {
        push_names(alloc, tokens, nodes_of(below, *list))?;
    }
    Ok(())
}

// Pushes the names of a list with commas between them.
fn push_names(alloc: Global, tokens: &mut Items<u32>, nodes: &[TreeNode]) -> Result<(), NoMemory>
    requires { IsForest nodes.now }
    ensures { (f : Forest) → preorder f ≡ nodes.now → OnOk result (tokens.new ≡ tokens.old ++ names_in f) }
{
    let found = pieces_of(alloc, nodes, Sought::One(productions::COMMA_NAME))?;
    let others = leaves_at(alloc, nodes, found.as_slice(), 1)?;
    tokens.push(leaf_at(nodes, 0))?;
    tokens.append(others)
}

//! The productions of some kinds among the nodes of a derivation, and what stands below each of them.

ghost use Rattle.std.specs.Prelude.{◌≡◌, ◌∷◌, ◌++◌, [], List, map, take, drop, IfOk, OnOk};
ghost use Rattle.source_model.specs.Forest.{Forest, Part, first_token, is_among, leaf_at, parts, preorder};
ghost use Rattle.source_nodes.specs.declared.pieces.Sought.TheVariants.{Instructions, LabelNames};
ghost use Rattle.source_nodes.specs.Pieces.{productions_of, ArePieces, AreParts, nodes_of};
ghost use Rattle.source_nodes.specs.Walk.{IsForest};

use crate::walk::{first_token, leaf_at};
use il_base::{Items, NoMemory};
use ilasm_grammar::{TreeNode, productions};
use source_model::{derivations_are_forests, forests_join, forests_open};
use std::alloc::Global;

/// A production: where the nodes below it begin, and how many they are.
#[derive(Debug, Clone, Copy, Drop)]
pub struct Piece {
    pub production: u16,
    pub start: usize,
    pub count: usize,
}

/// The productions that are looked for.
#[derive(Debug, Clone, Copy, PartialEq, Eq, Drop)]
pub enum Sought {
    /// One production.
    One(u16),
    /// Instructions, of each form of operand.
    Instructions,
    /// What names labels: branches, `switch`, ranges of clauses, and where filters start.
    LabelNames,
}

/// The outermost of the productions that are looked for, in order.
pub fn pieces_of(
    alloc: Global,
    nodes: &[TreeNode],
    sought: Sought,
) -> Result<Items<Piece>, NoMemory>
    requires { IsForest nodes.now }
    ensures { IfOk result (λ found. (f : Forest) → preorder f ≡ nodes.now → ArePieces nodes.now found (parts (productions_of sought) f)) }
{
    derivations_are_forests();
    forests_open();
    forests_join();
    let mut found = Items::new(alloc);
    let mut at = 0;
    while let Some(node) = nodes.get(at) {
        match *node {
            TreeNode::Branch {
                production,
                nodes: count,
            } => {
                let start = at + 1;
                let count = count as usize;
                if is_sought(sought, production) {
                    let piece = Piece {
                        production,
                        start,
                        count,
                    };
                    push_piece(&mut found, piece)?;
                    at = start + count;
                } else {
                    at = start;
                }
            }
            TreeNode::Leaf { .. } => at += 1,
        }
    }
    Ok(found)
}

// Adds a production. The first gets room for some more, since most lists have several.
fn push_piece(found: &mut Items<Piece>, piece: Piece) -> Result<(), NoMemory>
    ensures { OnOk result (found.new ≡ found.old ++ piece ∷ []) }
{
    if found.is_empty() {
        found.reserve(8)?;
        found.push(piece)?;
        Ok(())
    } else {
        found.push(piece)?;
        Ok(())
    }
}

// Whether a production is one of those that are looked for.
fn is_sought(sought: Sought, production: u16) -> bool
    ensures { result ≡ is_among (productions_of sought) production }
{
    match sought {
        Sought::One(p) => p == production,
        Sought::Instructions => is_instruction(production),
        Sought::LabelNames => names_labels(production),
    }
}

fn is_instruction(production: u16) -> bool
    ensures { result ≡ is_among (productions_of Instructions) production }
{
    matches!(
        production,
        productions::INSTRUCTION_OP_NONE
            | productions::INSTRUCTION_OP_VAR
            | productions::INSTRUCTION_OP_NUM
            | productions::INSTRUCTION_OP_REAL
            | productions::INSTRUCTION_OP_BRANCH
            | productions::INSTRUCTION_OP_METHOD
            | productions::INSTRUCTION_OP_FIELD
            | productions::INSTRUCTION_OP_TYPE
            | productions::INSTRUCTION_SWITCH
            | productions::INSTRUCTION_LDSTR
            | productions::INSTRUCTION_LDTOKEN
    )
}

fn names_labels(production: u16) -> bool
    ensures { result ≡ is_among (productions_of LabelNames) production }
{
    matches!(
        production,
        productions::INSTRUCTION_OP_BRANCH
            | productions::INSTRUCTION_SWITCH
            | productions::TRY_RANGE_NAME
            | productions::HANDLER_HANDLER
            | productions::FILTER_START_NAME
    )
}

/// The nodes below a production.
pub fn nodes_of(nodes: &[TreeNode], piece: Piece) -> &[TreeNode]
    ensures { result.now ≡ nodes_of nodes.now piece }
{
    front(behind(nodes, piece.start), piece.count)
}

fn behind(nodes: &[TreeNode], start: usize) -> &[TreeNode]
    ensures { result.now ≡ drop start nodes.now }
{
    if start < nodes.len() {
        let (_, after) = nodes.split_at(start);
        after
    } else {
        &[]
    }
}

fn front(nodes: &[TreeNode], count: usize) -> &[TreeNode]
    ensures { result.now ≡ take count nodes.now }
{
    if count < nodes.len() {
        let (before, _) = nodes.split_at(count);
        before
    } else {
        nodes
    }
}

/// Of each production the token at its top with this number, counted from 0.
pub fn leaves_at(
    alloc: Global,
    nodes: &[TreeNode],
    found: &[Piece],
    k: usize,
) -> Result<Items<u32>, NoMemory>
    requires { AreParts nodes.now found.now }
    ensures { (ps : List Part) → ArePieces nodes.now found.now ps → IfOk result (λ tokens. tokens ≡ map (λ p. leaf_at k p.below) ps) }
{
    let mut tokens = Items::with_capacity(alloc, found.len())?;
    for piece in found {
        tokens.push(leaf_at(nodes_of(nodes, *piece), k))?;
    }
    Ok(tokens)
}

/// The first token of each production.
pub fn first_tokens(
    alloc: Global,
    nodes: &[TreeNode],
    found: &[Piece],
) -> Result<Items<u32>, NoMemory>
    requires { AreParts nodes.now found.now }
    ensures { (ps : List Part) → ArePieces nodes.now found.now ps → IfOk result (λ tokens. tokens ≡ map (λ p. first_token p.below) ps) }
{
    let mut tokens = Items::with_capacity(alloc, found.len())?;
    for piece in found {
        tokens.push(first_token(nodes_of(nodes, *piece)))?;
    }
    Ok(tokens)
}

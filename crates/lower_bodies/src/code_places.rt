//! The numbers that labels and braces stand for in the code of a method (ECMA-335 II.5.4, II.15.4.1, II.19).

ghost use Rattle.std.specs.Prelude.{◌≡◌, IfOk, List, bytes_eq, map, slice_get};
ghost use Rattle.std.specs.List.Sorted.{IsNonDecreasing};
ghost use Rattle.lower_bodies.specs.CodePlaces.{IsCode};
ghost use Rattle.lower_bodies.specs.LabelSlots.{first_named, numbered};
ghost use Rattle.il_lexer.specs.declared.types.TokenKind.TheVariants.{Name};
ghost use Rattle.source_model.specs.Forest.{Forest, Part, first_token, preorder};
ghost use Rattle.source_model.specs.Instructions.{label_named, label_number, labels, mnemonic_token, number_at};
ghost use Rattle.source_model.specs.Source.{Source};
ghost use Rattle.source_syntax.specs.Labels.{count_below};
ghost use Rattle.source_model.specs.Values.{name_text};
ghost use Rattle.source_syntax.specs.Methods.{AreNames};
ghost use Rattle.source_nodes.specs.Pieces.{ArePieces};
ghost use Rattle.source_nodes.specs.Readers.{IsOf, Reads};

use crate::label_slots::{SLOTS, number_in};
use il_base::NoMemory;
use ilasm_grammar::TreeNode;
use source_model::{derivations_are_forests, forests_join, forests_open};
use source_nodes::equality::are_equal;
use source_nodes::narrowing::word_of;
use source_nodes::pieces::{Piece, nodes_of};
use source_nodes::reader::Reader;
use source_nodes::walk::next;
use source_syntax::declared::Declared;
use std::alloc::Global;

/// How a label of a method is found by its name.
#[derive(Clone, Copy)]
pub enum Names<'a> {
    /// Each is compared, where there is one or there are two short ones.
    Each,
    /// By its slot, where they are few.
    Slots(&'a [u8; SLOTS]),
    /// By the names of all.
    All(&'a Declared),
}

/// The labels of a method by the tokens of their names, how one is found, and its instructions among the nodes below its
/// production.
#[derive(Clone, Copy)]
pub struct Code<'a> {
    pub reader: Reader<'a>,
    pub nodes: &'a [TreeNode],
    pub instructions: &'a [Piece],
    pub labels: &'a [u32],
    pub names: Names<'a>,
}

impl<'a> Code<'a> {
    /// How many instructions begin before a token, which is the number of the one that follows it.
    pub fn number_at(&self, token: u32) -> u32
        ensures { (s : Source) (f : Forest) → IsCode self.now s f → result ≡ number_at f token }
    {
        word_of(number_before(self.nodes, self.instructions, token))
    }

    /// The number of the instruction that follows the label with a name, or of all instructions at the end.
    pub fn label_number(&self, alloc: Global, token: u32) -> Result<u32, NoMemory>
        ensures { (s : Source) (f : Forest) → IsCode self.now s f → IsOf s Name token → IfOk result (λ n. n ≡ label_number s f token) }
    {
        let found = self.label_at(alloc, token)?;
        match found {
            Some(label) => Ok(self.number_at(label)),
            None => Ok(word_of(self.instructions.len())),
        }
    }

    // The first label with the name that a token is.
    fn label_at(&self, alloc: Global, token: u32) -> Result<Option<u32>, NoMemory>
        ensures { (s : Source) (f : Forest) → IsCode self.now s f → IsOf s Name token → IfOk result (λ l. l ≡ label_named s f token) }
    {
        if let Some(name) = self.reader.plain_name(token) {
            return self.label_with(alloc, name);
        }
        let name = self.reader.name_text(alloc, token)?;
        self.label_with(alloc, name.as_bytes())
    }

    // The first label with this name.
    #[inline(always)]
    fn label_with(&self, alloc: Global, name: &[u8]) -> Result<Option<u32>, NoMemory>
        ensures { (s : Source) (f : Forest) → IsCode self.now s f → IfOk result (λ l. l ≡ first_named s name.now (labels f)) }
    {
        match self.names {
            Names::Each => first_named(alloc, &self.reader, self.labels, name),
            Names::Slots(slots) => {
                let number = number_in(slots, name);
                numbered(alloc, &self.reader, self.labels, number, name)
            }
            Names::All(names) => Ok(token_in(names, self.labels, name)),
        }
    }
}

// The one of some tokens whose place is one less than a number, if it is this name.
fn numbered(
    alloc: Global,
    reader: &Reader,
    tokens: &[u32],
    number: u8,
    name: &[u8],
) -> Result<Option<u32>, NoMemory>
    ensures { (s : Source) → Reads reader.now s → AreNames s tokens.now → IfOk result (λ l. l ≡ numbered s name.now tokens.now number) }
{
    if number == 0 {
        return Ok(None);
    }
    let Some(token) = token_at(tokens, usize::from(number) - 1) else {
        return Ok(None);
    };
    if is_named(alloc, reader, token, name)? {
        return Ok(Some(token));
    }
    Ok(None)
}

// The first of some tokens with a name, where these are their names.
fn token_in(names: &Declared, tokens: &[u32], name: &[u8]) -> Option<u32>
    ensures { (s : Source) → names.now ≡ map (name_text s) tokens.now → result ≡ first_named s name.now tokens.now }
{
    match names.find(name) {
        Some(k) => token_at(tokens, k),
        None => None,
    }
}

// The token at a place.
fn token_at(tokens: &[u32], k: usize) -> Option<u32>
    ensures { result ≡ slice_get tokens.now k }
{
    tokens.get(k).copied()
}

// The first of some tokens that is this name.
fn first_named(
    alloc: Global,
    reader: &Reader,
    tokens: &[u32],
    name: &[u8],
) -> Result<Option<u32>, NoMemory>
    ensures { (s : Source) → Reads reader.now s → AreNames s tokens.now → IfOk result (λ l. l ≡ first_named s name.now tokens.now) }
{
    let mut left = tokens;
    while let [token, rest @ ..] = left {
        if is_named(alloc, reader, *token, name)? {
            return Ok(Some(*token));
        }
        left = rest;
    }
    Ok(None)
}

// Whether a token is this name.
#[inline(always)]
fn is_named(alloc: Global, reader: &Reader, token: u32, name: &[u8]) -> Result<bool, NoMemory>
    ensures { (s : Source) → Reads reader.now s → IsOf s Name token → IfOk result (λ b. b ≡ bytes_eq (name_text s token) name.now) }
{
    if let Some(text) = reader.plain_name(token) {
        return Ok(are_equal(text, name));
    }
    let text = reader.name_text(alloc, token)?;
    Ok(are_equal(text.as_bytes(), name))
}

// How many instructions begin before a token, where their first tokens never fall.
fn number_before(nodes: &[TreeNode], instructions: &[Piece], token: u32) -> usize
    ensures { (ps : List Part) → ArePieces nodes.now instructions.now ps → IsNonDecreasing (map mnemonic_token ps) → result ≡ count_below token (map mnemonic_token ps) }
{
    let mut low = 0;
    let mut high = instructions.len();
    while low < high {
        let middle = low + (high - low) / 2;
        if first_leaf(nodes_of(nodes, instructions[middle])) < token {
            low = middle + 1;
        } else {
            high = middle;
        }
    }
    low
}

// The first token among some nodes; 0 where there is none.
fn first_leaf(nodes: &[TreeNode]) -> u32
    ensures { (f : Forest) → preorder f ≡ nodes.now → result ≡ first_token f }
{
    derivations_are_forests();
    forests_open();
    forests_join();
    let mut left = nodes;
    while let Some((node, rest)) = next(left) {
        match node {
            TreeNode::Branch { .. } => left = rest,
            TreeNode::Leaf { token } => return token,
        }
    }
    0
}

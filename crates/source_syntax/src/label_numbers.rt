//! The numbers that the labels of a method stand for (ECMA-335 II.5.4, II.15.4.1).

ghost use Rattle.std.specs.Prelude.{◌≡◌, IfOk, map};
ghost use Rattle.std.specs.List.Sorted.{IsNonDecreasing};
ghost use Rattle.il_lexer.specs.declared.types.TokenKind.TheVariants.{Name};
ghost use Rattle.source_model.specs.Forest.{Forest, preorder};
ghost use Rattle.source_model.specs.Instructions.{instructions_of};
ghost use Rattle.source_model.specs.Nodes.{Node};
ghost use Rattle.source_model.specs.Source.{Source};
ghost use Rattle.source_syntax.specs.Labels.{count_below, number_declared, number_found, AreLabels};
ghost use Rattle.source_syntax.specs.Methods.{IsMethod};
ghost use Rattle.source_nodes.specs.Pieces.{ArePieces, AreParts};
ghost use Rattle.source_nodes.specs.Readers.{IsOf, Reads};
ghost use Rattle.source_nodes.specs.Walk.{IsForest};

use crate::declared::Declared;
use crate::labels::{label_tokens, names_at};
use il_base::{Items, NoMemory};
use ilasm_grammar::TreeNode;
use source_nodes::pieces::{Piece, first_tokens};
use source_nodes::reader::Reader;
use std::alloc::Global;

/// The labels of a method: their names, and for each the number of the instruction that follows it, or of all instructions
/// at the end.
#[derive(Drop)]
pub struct Labels {
    pub names: Declared,
    pub numbers: Items<usize>,
}

impl Labels {
    /// The labels of a method, from the nodes below its production and its instructions.
    pub fn read(
        alloc: Global,
        reader: &Reader,
        nodes: &[TreeNode],
        code: &[Piece],
    ) -> Result<Labels, NoMemory>
        requires forest { IsForest nodes.now }
        requires parts { AreParts nodes.now code.now }
        ensures { (s : Source) (n : Node) → Reads reader.now s → IsMethod s n → preorder n.below ≡ nodes.now →
            ArePieces nodes.now code.now (instructions_of n.below) → IfOk result (λ x. AreLabels x s n.below) }
    {
        let tokens = label_tokens(alloc, nodes)?;
        let names = names_at(alloc, reader, tokens.as_slice())?;
        let starts = first_tokens(alloc, nodes, code)?;
        let numbers = numbers_at(alloc, starts.as_slice(), tokens.as_slice())?;
        Ok(Labels { names, numbers })
    }

    /// The number that a name stands for, where the method has a label with it.
    pub fn number_of(
        &self,
        alloc: Global,
        reader: &Reader,
        token: u32,
    ) -> Result<Option<usize>, NoMemory>
        ensures { (s : Source) (f : Forest) → Reads reader.now s → AreLabels self.now s f → IsOf s Name token → IfOk result (λ n. n ≡ number_declared s f token) }
    {
        if let Some(name) = reader.plain_name(token) {
            return Ok(self.number_named(name));
        }
        let name = reader.name_text(alloc, token)?;
        Ok(self.number_named(name.as_bytes()))
    }

    // The number of the first label with this name.
    fn number_named(&self, name: &[u8]) -> Option<usize>
        ensures { result ≡ number_found self.now.names self.now.numbers name.now }
    {
        match self.names.find(name) {
            Some(k) => self.numbers.get(k).copied(),
            None => None,
        }
    }
}

// For each of these tokens how many of those that begin instructions are before it.
fn numbers_at(alloc: Global, starts: &[u32], tokens: &[u32]) -> Result<Items<usize>, NoMemory>
    ensures { IsNonDecreasing starts.now → IfOk result (λ numbers. numbers ≡ map (λ k. count_below k starts.now) tokens.now) }
{
    let mut numbers = Items::with_capacity(alloc, tokens.len())?;
    for token in tokens {
        numbers.push(number_before(starts, *token))?;
    }
    Ok(numbers)
}

// How many tokens are less than one, where they never fall.
fn number_before(starts: &[u32], token: u32) -> usize
    ensures { IsNonDecreasing starts.now → result ≡ count_below token starts.now }
{
    starts.partition_point(|start| *start < token)
}

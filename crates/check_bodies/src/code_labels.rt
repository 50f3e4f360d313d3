//! The labels of a method with the numbers of the instructions behind them (ECMA-335 II.5.4, II.15.4.1).

ghost use Rattle.std.specs.Prelude.{◌≡◌, IfOk, map};
ghost use Rattle.std.specs.List.Sorted.{IsNonDecreasing};
ghost use Rattle.source_model.specs.Instructions.{instructions_of, labels};
ghost use Rattle.source_model.specs.Nodes.{Node};
ghost use Rattle.source_model.specs.Source.{Source};
ghost use Rattle.source_syntax.specs.Labels.{AreLabels, count_below};
ghost use Rattle.source_syntax.specs.Methods.{IsMethod};
ghost use Rattle.source_nodes.specs.Pieces.{ArePieces, AreParts};
ghost use Rattle.source_nodes.specs.Readers.{Reads};

use il_base::{Items, NoMemory};
use ilasm_grammar::TreeNode;
use source_nodes::pieces::{Piece, first_tokens};
use source_nodes::reader::Reader;
use source_syntax::label_numbers::Labels;
use source_syntax::labels::names_at;
use std::alloc::Global;

/// The labels of a method, from the tokens of their names and its instructions.
pub fn labels_of(
    alloc: Global,
    reader: &Reader,
    nodes: &[TreeNode],
    code: &[Piece],
    tokens: &[u32],
) -> Result<Labels, NoMemory>
    requires { AreParts nodes.now code.now }
    ensures { (s : Source) (n : Node) → Reads reader.now s → IsMethod s n → tokens.now ≡ labels n.below → ArePieces nodes.now code.now (instructions_of n.below) →
        IfOk result (λ x. AreLabels x s n.below) }
{
    let names = names_at(alloc, reader, tokens)?;
    let starts = first_tokens(alloc, nodes, code)?;
    let numbers = numbers_at(alloc, starts.as_slice(), tokens)?;
    Ok(Labels { names, numbers })
}

// For each of these tokens how many of those that begin instructions are before it.
fn numbers_at(alloc: Global, starts: &[u32], tokens: &[u32]) -> Result<Items<usize>, NoMemory>
    ensures { IsNonDecreasing starts.now → IfOk result (λ numbers. numbers ≡ map (λ k. count_below k starts.now) tokens.now) }
{
    let mut numbers = Items::with_capacity(alloc, tokens.len())?;
    for token in tokens {
        numbers.push(number_before(starts, *token))?;
    }
    Ok(numbers)
}

// How many tokens are less than one, where they never fall.
fn number_before(starts: &[u32], token: u32) -> usize
    ensures { IsNonDecreasing starts.now → result ≡ count_below token starts.now }
{
    starts.partition_point(|start| *start < token)
}

//! Branches to the end of a method's code (ECMA-335 III.1.7.2, III.3.15).

ghost use Rattle.std.specs.Prelude.{◌≡◌, List, IfOk, filter};
ghost use Rattle.std.specs.List.{flat_map};
ghost use Rattle.source_model.specs.BodyFaults.{branches_to_the_end, targets_at_the_end};
ghost use Rattle.source_model.specs.Forest.{Forest, Part};
ghost use Rattle.source_model.specs.Instructions.{instructions_of, targets};
ghost use Rattle.source_model.specs.Source.{Source};
ghost use Rattle.source_syntax.specs.Labels.{ends_at, number_declared, AreLabels};
ghost use Rattle.source_nodes.specs.Least.{least};
ghost use Rattle.source_syntax.specs.Methods.{AreNames};
ghost use Rattle.source_nodes.specs.Pieces.{ArePieces, AreParts};
ghost use Rattle.source_nodes.specs.Readers.{Reads};
ghost use Rattle.source_nodes.specs.Walk.{IsForest};

use il_base::{Items, NoMemory};
use ilasm_grammar::{TreeNode, productions};
use source_nodes::least::sooner;
use source_nodes::pieces::{Piece, Sought, nodes_of, pieces_of};
use source_nodes::reader::Reader;
use source_syntax::label_numbers::Labels;
use source_syntax::labels::push_targets;
use source_syntax::methods::{MethodRule, first_in_methods};
use std::alloc::Global;

/// The least label behind a branch that no instruction follows.
pub fn branch_to_the_end(alloc: Global, reader: &Reader) -> Result<Option<u32>, NoMemory>
    requires { IsForest reader.now.nodes.now }
    ensures { (s : Source) → Reads reader.now s → IfOk result (λ k. k ≡ least (branches_to_the_end s)) }
{
    let first = first_in_methods(&BranchesToTheEnd, alloc, reader)?;
    Ok(first)
}

// Labels behind branches that no instruction follows.
struct BranchesToTheEnd;

impl MethodRule for BranchesToTheEnd {
    ghost broken = { λ _ s n. flat_map (targets_at_the_end s n.below) (instructions_of n.below) };

    fn first(
        &self,
        alloc: Global,
        reader: &Reader,
        below: &[TreeNode],
    ) -> Result<Option<u32>, NoMemory> {
        let code = pieces_of(alloc, below, Sought::Instructions)?;
        let labels = Labels::read(alloc, reader, below, code.as_slice())?;
        let tokens = all_targets(alloc, below, code.as_slice())?;
        first_at(alloc, reader, &labels, tokens.as_slice(), code.len())
    }
}

/// The labels that instructions branch to, in order.
pub fn all_targets(
    alloc: Global,
    nodes: &[TreeNode],
    code: &[Piece],
) -> Result<Items<u32>, NoMemory>
    requires { AreParts nodes.now code.now }
    ensures { (ps : List Part) → ArePieces nodes.now code.now ps → IfOk result (λ tokens. tokens ≡ flat_map targets ps) }
{
    let mut tokens = Items::with_capacity(alloc, branches_in(code))?;
    for piece in code {
        let below = nodes_of(nodes, *piece);
        push_targets(alloc, &mut tokens, piece.production, below)?;
    }
    Ok(tokens)
}

// How many of these instructions are branches to one label.
fn branches_in(code: &[Piece]) -> usize {
    code.iter()
        .filter(|piece| piece.production == productions::INSTRUCTION_OP_BRANCH)
        .count()
}

/// The least of these names that stands for this number.
pub fn first_at(
    alloc: Global,
    reader: &Reader,
    labels: &Labels,
    tokens: &[u32],
    number: usize,
) -> Result<Option<u32>, NoMemory>
    ensures { (s : Source) (f : Forest) → Reads reader.now s → AreLabels labels.now s f → AreNames s tokens.now →
        IfOk result (λ k. k ≡ least (filter (λ t. ends_at number (number_declared s f t)) tokens.now)) }
{
    let mut found = None;
    for token in tokens {
        let target = labels.number_of(alloc, reader, *token)?;
        if ends_at(number, target) {
            found = sooner(found, Some(*token));
        }
    }
    Ok(found)
}

// Whether a number was found, and is this one.
fn ends_at(number: usize, target: Option<usize>) -> bool
    ensures { result ≡ ends_at number target }
{
    match target {
        Some(n) => n == number,
        None => false,
    }
}

//! Numbers and counts of bodies that are out of their ranges (ECMA-335 II.15.4.1.3, II.25.4.2, II.25.4.5, III.1.7.2).

ghost use Rattle.std.specs.Prelude.{◌≡◌, List, IfOk};
ghost use Rattle.std.specs.List.{enumerate_from, flat_map};
ghost use Rattle.source_model.specs.BodyNumbers.{body_numbers_out_of_range, body_numbers_out_of_range_in, local_misnumbered};
ghost use Rattle.source_model.specs.Forest.{Forest, Part, below_each, preorder};
ghost use Rattle.source_model.specs.Instructions.{instructions_of};
ghost use Rattle.source_model.specs.Nodes.{Node};
ghost use Rattle.source_model.specs.Source.{Source};
ghost use Rattle.source_model.specs.Variables.{locals};
ghost use Rattle.source_nodes.specs.Least.{least};
ghost use Rattle.source_syntax.specs.Methods.{IsMethod};
ghost use Rattle.source_nodes.specs.Pieces.{ArePieces, AreParts};
ghost use Rattle.source_nodes.specs.Readers.{Reads};
ghost use Rattle.source_nodes.specs.Walk.{IsForest};
ghost use Rattle.check_bodies.specs.OperandRanges.{operand_at_fault};

use crate::clause_counts::clause_past_most;
use crate::instruction_rules::first_in_code;
use crate::operand_ranges::OperandRanges;
use crate::variables::Variables;
use check_visitor::counts::local_past_most;
use check_visitor::ranges::{Limit, beyond_in_each};
use il_base::NoMemory;
use ilasm_grammar::{TreeNode, productions};
use source_nodes::least::sooner;
use source_nodes::pieces::{Piece, Sought, nodes_of, pieces_of};
use source_nodes::reader::Reader;
use source_nodes::walk::child;
use source_syntax::methods::{MethodRule, first_in_methods};
use std::alloc::Global;

/// The least token of a number or a count in a method's body that is out of its range.
pub fn body_number(alloc: Global, reader: &Reader) -> Result<Option<u32>, NoMemory>
    requires { IsForest reader.now.nodes.now }
    ensures { (s : Source) → Reads reader.now s → IfOk result (λ k. k ≡ least (body_numbers_out_of_range s)) }
{
    let first = first_in_methods(&BodyNumbers, alloc, reader)?;
    Ok(first)
}

// The numbers and counts of bodies keep their ranges.
struct BodyNumbers;

impl MethodRule for BodyNumbers {
    ghost broken = { λ _ s n. body_numbers_out_of_range_in s n };

    fn first(
        &self,
        alloc: Global,
        reader: &Reader,
        below: &[TreeNode],
    ) -> Result<Option<u32>, NoMemory> {
        let stack = beyond_in_each(
            reader,
            below,
            productions::ITEM_MAXSTACK,
            Limit::UpTo(0xFFFF),
        );
        let operands = first_operand(alloc, reader, below)?;
        let misnumbered = misnumbered_local(alloc, reader, below)?;
        let local = local_past_most(below);
        let clause = clause_past_most(below);
        let past = sooner(local, clause);
        let counts = sooner(misnumbered, past);
        let code = sooner(operands, counts);
        Ok(sooner(stack, code))
    }
}

// The least number of an instruction that is out of its range.
fn first_operand(
    alloc: Global,
    reader: &Reader,
    method: &[TreeNode],
) -> Result<Option<u32>, NoMemory>
    requires { IsForest method.now }
    ensures { (s : Source) (n : Node) → Reads reader.now s → IsMethod s n → preorder n.below ≡ method.now →
        IfOk result (λ k. k ≡ least (flat_map (operand_at_fault s n.below) (instructions_of n.below))) }
{
    let code = pieces_of(alloc, method, Sought::Instructions)?;
    let variables = Variables::read(alloc, reader, method)?;
    let rule = OperandRanges {
        variables: &variables,
    };
    let first = first_in_code(&rule, alloc, reader, method, code.as_slice())?;
    Ok(first)
}

/// The least number in brackets before a local that isn't the local's.
pub fn misnumbered_local(
    alloc: Global,
    reader: &Reader,
    method: &[TreeNode],
) -> Result<Option<u32>, NoMemory>
    requires { IsForest method.now }
    ensures { (s : Source) (f : Forest) → Reads reader.now s → preorder f ≡ method.now →
        IfOk result (λ k. k ≡ least (flat_map (local_misnumbered s) (enumerate_from 0 (locals f)))) }
{
    let found = pieces_of(alloc, method, Sought::One(productions::LOCAL))?;
    Ok(misnumbered(reader, method, found.as_slice()))
}

// The same of the locals that were found.
fn misnumbered(reader: &Reader, nodes: &[TreeNode], found: &[Piece]) -> Option<u32>
    requires { AreParts nodes.now found.now }
    ensures { (s : Source) (ps : List Part) → Reads reader.now s → ArePieces nodes.now found.now ps →
        result ≡ least (flat_map (local_misnumbered s) (enumerate_from 0 (below_each ps))) }
{
    let mut first = None;
    for k in 0..found.len() {
        let local = nodes_of(nodes, found[k]);
        let number = child(local, productions::BRACKETED_INT_OPT_SOME);
        let here = beyond_in_each(
            reader,
            number,
            productions::BRACKETED_INT,
            Limit::Exactly(k as u64),
        );
        first = sooner(first, here);
    }
    first
}

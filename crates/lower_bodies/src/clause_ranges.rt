//! The ranges of a method's exception clauses, as numbers of instructions (ECMA-335 II.15.4.1, II.19).

ghost use Rattle.std.specs.Prelude.{◌≡◌, IfOk};
ghost use Rattle.il_lexer.specs.declared.types.TokenKind.TheVariants.{Name};
ghost use Rattle.source_model.specs.Clauses.{block_in, filter_start, handler_range, label_range, scope_range, stands, try_range};
ghost use Rattle.source_model.specs.Forest.{Forest, preorder};
ghost use Rattle.source_model.specs.Source.{Source};
ghost use Rattle.lower_bodies.specs.CodePlaces.{IsCode};
ghost use Rattle.source_nodes.specs.Derived.{HasBodies};
ghost use Rattle.source_nodes.specs.Readers.{IsOf};
ghost use Rattle.source_nodes.specs.Walk.{IsForest};
ghost use Rattle.lower_bodies.specs.Ranges.{range_of};

use crate::code_places::Code;
use il_base::NoMemory;
use ilasm_grammar::{TreeNode, productions};
use source_model::{derivations_are_forests, forests_open};
use source_nodes::walk::{child, leaf_at, next};
use std::alloc::Global;

/// Instructions by their numbers, from the first up to the one behind the last.
#[derive(Debug, Clone, Copy, PartialEq, Eq, Drop)]
pub struct CodeRange {
    pub start: u32,
    pub end: u32,
}

/// What a `.try` guards, from the nodes below its production.
pub fn try_range(alloc: Global, code: &Code, tried: &[TreeNode]) -> Result<CodeRange, NoMemory>
    requires { IsForest tried.now }
    ensures { (s : Source) (f t : Forest) → IsCode code.now s f → HasBodies s t → preorder t ≡ tried.now → IfOk result (λ r. range_of r ≡ try_range s f t) }
{
    if stands(tried, productions::TRY_RANGE_NAME) {
        let names = child(tried, productions::TRY_RANGE_NAME);
        label_range(alloc, code, leaf_at(names, 0), leaf_at(names, 2))
    } else {
        Ok(block_range(code, tried, productions::TRY_RANGE_BLOCK))
    }
}

/// The handler of a clause, from the nodes below its production.
pub fn handler_range(alloc: Global, code: &Code, clause: &[TreeNode]) -> Result<CodeRange, NoMemory>
    requires { IsForest clause.now }
    ensures { (s : Source) (f c : Forest) → IsCode code.now s f → HasBodies s c → preorder c ≡ clause.now → IfOk result (λ r. range_of r ≡ handler_range s f c) }
{
    if stands(clause, productions::HANDLER_HANDLER) {
        let names = child(clause, productions::HANDLER_HANDLER);
        label_range(alloc, code, leaf_at(names, 1), leaf_at(names, 3))
    } else {
        Ok(block_range(code, clause, productions::HANDLER_BLOCK))
    }
}

/// Where the filter of a clause starts, from the nodes below its production.
pub fn filter_start(alloc: Global, code: &Code, clause: &[TreeNode]) -> Result<u32, NoMemory>
    requires { IsForest clause.now }
    ensures { (s : Source) (f c : Forest) → IsCode code.now s f → HasBodies s c → preorder c ≡ clause.now → IfOk result (λ k. k ≡ filter_start s f c) }
{
    if stands(clause, productions::FILTER_START_NAME) {
        let name = leaf_at(child(clause, productions::FILTER_START_NAME), 0);
        code.label_number(alloc, name)
    } else {
        let block = block_range(code, clause, productions::FILTER_START_BLOCK);
        Ok(block.start)
    }
}

// From one label to another, by the tokens of their names.
fn label_range(alloc: Global, code: &Code, from: u32, to: u32) -> Result<CodeRange, NoMemory>
    ensures { (s : Source) (f : Forest) → IsCode code.now s f → IsOf s Name from → IsOf s Name to → IfOk result (λ r. range_of r ≡ label_range s f from to) }
{
    let start = code.label_number(alloc, from)?;
    let end = code.label_number(alloc, to)?;
    Ok(CodeRange { start, end })
}

// From the opening to the closing brace of the block that stands below this production.
fn block_range(code: &Code, nodes: &[TreeNode], production: u16) -> CodeRange
    requires { IsForest nodes.now }
    ensures { (s : Source) (f g : Forest) → IsCode code.now s f → preorder g ≡ nodes.now → range_of result ≡ scope_range f (block_in production g) }
{
    let block = child(child(nodes, production), productions::BLOCK);
    CodeRange {
        start: code.number_at(leaf_at(block, 0)),
        end: code.number_at(leaf_at(block, 1)),
    }
}

// Whether a branch with this production stands at the top.
fn stands(nodes: &[TreeNode], production: u16) -> bool
    requires { IsForest nodes.now }
    ensures { (f : Forest) → preorder f ≡ nodes.now → result ≡ stands production f }
{
    derivations_are_forests();
    forests_open();
    let mut left = nodes;
    while let Some((node, rest)) = next(left) {
        match node {
            TreeNode::Branch {
                production: p,
                nodes: count,
            } => {
                if p == production {
                    return true;
                }
                let (_, after) = rest.split_at(count as usize);
                left = after;
            }
            TreeNode::Leaf { .. } => left = rest,
        }
    }
    false
}

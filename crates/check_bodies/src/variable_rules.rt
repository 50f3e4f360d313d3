//! Names of arguments and locals that a method doesn't have (ECMA-335 III.1.7.2, III.3.38, III.3.43).

ghost use Rattle.std.specs.Prelude.{◌≡◌, IfOk};
ghost use Rattle.std.specs.List.{flat_map};
ghost use Rattle.source_model.specs.BodyFaults.{variable_undeclared, variables_undeclared};
ghost use Rattle.source_model.specs.Forest.{Forest, Part, preorder};
ghost use Rattle.source_model.specs.Instructions.{instructions_with};
ghost use Rattle.source_model.specs.Source.{Source};
ghost use Rattle.ilasm_grammar.specs.declared.productions.TheConstants as production;
ghost use Rattle.source_nodes.specs.Derived.{FitsBody, HasBodies};
ghost use Rattle.source_nodes.specs.Least.{least};
ghost use Rattle.source_nodes.specs.Readers.{Reads};
ghost use Rattle.source_nodes.specs.Walk.{IsForest};
ghost use Rattle.check_bodies.specs.NamedVariables.{undeclared_at, AreVariables, ServesVariables};

use crate::instruction_rules::{InstructionRule, first_in_code};
use crate::variables::Variables;
use check_visitor::ranges::unless;
use il_base::NoMemory;
use ilasm_grammar::{TreeNode, productions};
use source_nodes::operations::op_of;
use source_nodes::pieces::{Sought, pieces_of};
use source_nodes::reader::Reader;
use source_nodes::walk::{child, has, leaf_at};
use source_syntax::methods::{MethodRule, first_in_methods};
use std::alloc::Global;

/// The least name in an instruction that no parameter or no local of its method has.
pub fn variable_undeclared(alloc: Global, reader: &Reader) -> Result<Option<u32>, NoMemory>
    requires { IsForest reader.now.nodes.now }
    ensures { (s : Source) → Reads reader.now s → IfOk result (λ k. k ≡ least (variables_undeclared s)) }
{
    let first = first_in_methods(&NamedVariables, alloc, reader)?;
    Ok(first)
}

// Names of variables that the method doesn't have.
struct NamedVariables;

impl MethodRule for NamedVariables {
    ghost broken = { λ _ s n. flat_map (variable_undeclared s n.below) (instructions_with production.INSTRUCTION_OP_VAR n.below) };

    fn first(
        &self,
        alloc: Global,
        reader: &Reader,
        below: &[TreeNode],
    ) -> Result<Option<u32>, NoMemory> {
        let code = pieces_of(alloc, below, Sought::Instructions)?;
        let variables = Variables::read(alloc, reader, below)?;
        let rule = AmongVariables {
            variables: &variables,
        };
        let first = first_in_code(&rule, alloc, reader, below, code.as_slice())?;
        Ok(first)
    }
}

/// Names in instructions are among those of these variables.
#[derive(Clone, Copy)]
pub struct AmongVariables<'a> {
    pub variables: &'a Variables,
}

impl<'a> InstructionRule for AmongVariables<'a> {
    ghost broken = { λ _ s n k. undeclared_at s n.below k.1 };

    ghost knows = { λ rule s n. ServesVariables rule.variables.now s n.below };

    fn first(
        &self,
        alloc: Global,
        reader: &Reader,
        _number: usize,
        production: u16,
        below: &[TreeNode],
    ) -> Result<Option<u32>, NoMemory> {
        match production {
            productions::INSTRUCTION_OP_VAR => undeclared(alloc, reader, self.variables, below),
            _ => Ok(None),
        }
    }
}

// The name in an instruction of a variable, unless it is among these.
fn undeclared(
    alloc: Global,
    reader: &Reader,
    variables: &Variables,
    below: &[TreeNode],
) -> Result<Option<u32>, NoMemory>
    requires { IsForest below.now }
    ensures { (s : Source) (f : Forest) (p : Part) → Reads reader.now s → AreVariables variables.now s f → FitsBody s production.INSTRUCTION_OP_VAR p.below →
        HasBodies s p.below → preorder p.below ≡ below.now → IfOk result (λ k. k ≡ least (variable_undeclared s f p)) }
{
    if has(below, productions::INDEX_NAME) {
        let token = leaf_at(child(below, productions::INDEX_NAME), 0);
        let number = variables.number_of(alloc, reader, op_of(reader, below), token)?;
        Ok(unless(number.is_some(), token))
    } else {
        Ok(None)
    }
}

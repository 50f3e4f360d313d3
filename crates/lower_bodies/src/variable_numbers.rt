//! The numbers of the variables in instructions (ECMA-335 III.1.7.2, III.3.38, III.3.43).

ghost use Rattle.std.specs.Prelude.{◌≡◌, ◌<◌, ◌^◌, [], IfOk};
ghost use Rattle.ilasm_grammar.specs.declared.productions.TheConstants.{INSTRUCTION_OP_VAR};
ghost use Rattle.source_model.specs.BodyNumbers.{variable_out_of_range};
ghost use Rattle.source_model.specs.Forest.{Forest, Part, preorder};
ghost use Rattle.source_model.specs.Shapes.{natural};
ghost use Rattle.source_model.specs.Source.{Source};
ghost use Rattle.source_model.specs.Values.{or_zero};
ghost use Rattle.source_model.specs.Variables.{variable_number};
ghost use Rattle.source_nodes.specs.Derived.{FitsBody, HasBodies};
ghost use Rattle.source_nodes.specs.Readers.{Reads};
ghost use Rattle.source_nodes.specs.Walk.{IsForest};
ghost use Rattle.lower_bodies.specs.NamedVariables.{AreVariables};

use crate::variables::Variables;
use il_base::NoMemory;
use ilasm_grammar::TreeNode;
use ilasm_grammar::productions::{INDEX_INT, INDEX_NAME};
use source_flags::naturals::natural_16;
use source_nodes::operations::op_of;
use source_nodes::reader::Reader;
use source_nodes::walk::{child, has, leaf_at};
use std::alloc::Global;

/// The number of the variable of an instruction, written as a number or by its name, from the nodes below its production.
pub fn variable_number(
    alloc: Global,
    reader: &Reader,
    variables: &Variables,
    nodes: &[TreeNode],
) -> Result<u16, NoMemory>
    requires { IsForest nodes.now }
    ensures { (s : Source) (f : Forest) (p : Part) → Reads reader.now s → AreVariables variables.now s f → FitsBody s INSTRUCTION_OP_VAR p.below →
        HasBodies s p.below → preorder p.below ≡ nodes.now → variable_out_of_range s f p ≡ [] →
        IfOk result (λ number. number ≡ natural (variable_number s f p)) }
{
    if has(nodes, INDEX_NAME) {
        let token = leaf_at(child(nodes, INDEX_NAME), 0);
        let number = variables.number_of(alloc, reader, op_of(reader, nodes), token)?;
        Ok(short_or_zero(number))
    } else {
        Ok(natural_16(reader, leaf_at(child(nodes, INDEX_INT), 0)))
    }
}

// A number of 16 bits, where it is one, and 0 where there is none.
fn short_or_zero(number: Option<usize>) -> u16
    ensures { or_zero number < 2 ^ 16 → result ≡ or_zero number }
{
    match number {
        Some(n) => { if n <= 0xFFFF { n as u16 } else { 0 } }
        None => 0,
    }
}

//! The operands of instructions (ECMA-335 III.1.7, III.3, III.4).

ghost use Rattle.std.specs.Prelude.{◌≡◌, ◌<◌, ◌^◌, ◌++◌, ◌∷◌, [], IfOk, length, map, true};
ghost use Rattle.assembly_tree.specs.declared.body.Operand.TheVariants as operand;
ghost use Rattle.ilasm_grammar.specs.declared.productions.TheConstants.{FIELD_REF, INSTRUCTION_OP_VAR, METHOD_REF};
ghost use Rattle.source_model.specs.BodyNumbers.{variable_out_of_range};
ghost use Rattle.source_model.specs.Forest.{Forest, Part, has, preorder, the};
ghost use Rattle.source_model.specs.Instructions.{label_number, targets};
ghost use Rattle.source_model.specs.Nodes.{Around};
ghost use Rattle.source_model.specs.Operands.{instruction, token_operand};
ghost use Rattle.source_model.specs.References.{field_ref, method_ref};
ghost use Rattle.source_model.specs.Shapes.{natural};
ghost use Rattle.source_model.specs.Source.{Source};
ghost use Rattle.source_model.specs.Types.{the_owner};
ghost use Rattle.source_model.specs.Variables.{variable_number};
ghost use Rattle.lower_bodies.specs.CodePlaces.{IsCode};
ghost use Rattle.source_flags.specs.InRange.{AllInRange, IsInRange};
ghost use Rattle.source_nodes.specs.Derived.{FitsBody, HasBodies};
ghost use Rattle.source_syntax.specs.Methods.{AreNames};
ghost use Rattle.source_syntax.specs.Places.{IsAt};
ghost use Rattle.source_nodes.specs.Walk.{IsForest};
ghost use Rattle.lower_bodies.specs.BodyPlaces.{IsWithin};
ghost use Rattle.lower_bodies.specs.MethodsInRange.{IsInstructionInRange};
ghost use Rattle.lower_bodies.specs.NamedVariables.{takes_variables};
ghost use Rattle.lower_bodies.specs.Operands.{instruction_with, other_operand, reference_operand};

use crate::body_places::BodyPlace;
use crate::code_places;
use crate::code_pushes::{
    push_field_ref, push_method_ref, push_number, push_owner, push_plain, push_real, push_target,
    push_targets, push_text, push_variable,
};
use crate::numbers::number;
use crate::reals::real_bits;
use crate::strings::string_units;
use crate::variable_numbers::variable_number;
use assembly_tree::Code;
use il_base::{Items, NoMemory, Numbers};
use ilasm_grammar::TreeNode;
use ilasm_grammar::productions::{
    FIELD_REF, INSTRUCTION_LDSTR, INSTRUCTION_OP_BRANCH, INSTRUCTION_OP_FIELD,
    INSTRUCTION_OP_METHOD, INSTRUCTION_OP_NONE, INSTRUCTION_OP_NUM, INSTRUCTION_OP_REAL,
    INSTRUCTION_OP_TYPE, INSTRUCTION_OP_VAR, INSTRUCTION_SWITCH, METHOD_REF, TOKEN_OPERAND_FIELD,
    TOKEN_OPERAND_METHOD,
};
use opcode_table::{Op, kind_of};
use source_nodes::operations::op_of;
use source_nodes::walk::{has, leaf_at, the};
use source_syntax::labels;
use source_syntax::place::Place;
use std::alloc::Global;

/// Adds an instruction, from its production and the nodes below that.
pub fn push_instruction(
    all: &mut Code,
    alloc: Global,
    at: &BodyPlace,
    production: u16,
    nodes: &[TreeNode],
) -> Result<(), NoMemory>
    requires forest { IsForest nodes.now }
    requires few { length nodes.now < 2 ^ 32 }
    ensures { (s : Source) (a : Around) (f : Forest) (p : Part) → IsWithin at.now s a f → production ≡ p.production → preorder p.below ≡ nodes.now →
        IsInstructionInRange s f p → IfOk result (λ _. all.new ≡ all.old ++ instruction s a f p ∷ []) }
{
    let reader = &at.place.reader;
    let op = op_of(reader, nodes);
    match production {
        INSTRUCTION_OP_NONE => push_plain(all, op),
        INSTRUCTION_OP_VAR => {
            let number = number_of_variable(alloc, at, nodes)?;
            push_variable(all, op, number)
        }
        INSTRUCTION_OP_NUM => {
            let number = number(reader, kind_of(op), leaf_at(nodes, 0));
            push_number(all, op, number)
        }
        INSTRUCTION_OP_REAL => {
            let bits = real_bits(alloc, reader, nodes)?;
            push_real(all, op, bits)
        }
        _ => push_other(all, alloc, at, op, production, nodes),
    }
}

// The number of the variable of an instruction.
fn number_of_variable(alloc: Global, at: &BodyPlace, nodes: &[TreeNode]) -> Result<u16, NoMemory>
    requires { IsForest nodes.now }
    ensures { (s : Source) (a : Around) (f : Forest) (p : Part) → IsWithin at.now s a f → takes_variables f ≡ true → FitsBody s INSTRUCTION_OP_VAR p.below →
        HasBodies s p.below → preorder p.below ≡ nodes.now → variable_out_of_range s f p ≡ [] → IfOk result (λ number. number ≡ natural (variable_number s f p)) }
{
    match at.variables {
        Some(variables) => variable_number(alloc, &at.place.reader, variables, nodes),
        None => Ok(0),
    }
}

// Adds one that takes neither nothing nor a number.
fn push_other(
    all: &mut Code,
    alloc: Global,
    at: &BodyPlace,
    op: Op,
    production: u16,
    nodes: &[TreeNode],
) -> Result<(), NoMemory>
    requires forest { IsForest nodes.now }
    requires few { length nodes.now < 2 ^ 32 }
    ensures { (s : Source) (a : Around) (f : Forest) (p : Part) → IsWithin at.now s a f → production ≡ p.production → preorder p.below ≡ nodes.now →
        IsInstructionInRange s f p → IfOk result (λ _. all.new ≡ all.old ++ instruction_with op (other_operand s a f p) ∷ []) }
{
    match production {
        INSTRUCTION_OP_BRANCH => {
            let number = at.code.label_number(alloc, leaf_at(nodes, 0))?;
            push_target(all, op, number)
        }
        INSTRUCTION_SWITCH => {
            let numbers = target_numbers(alloc, &at.code, production, nodes)?;
            push_targets(all, alloc, op, numbers)
        }
        INSTRUCTION_LDSTR => {
            let units = string_units(alloc, &at.place.reader, nodes)?;
            push_text(all, alloc, op, units)
        }
        _ => push_reference(all, alloc, &at.place, op, production, nodes),
    }
}

// The numbers of the labels behind a branch or in the parentheses of `switch`.
fn target_numbers(
    alloc: Global,
    code: &code_places::Code,
    production: u16,
    nodes: &[TreeNode],
) -> Result<Numbers, NoMemory>
    requires { IsForest nodes.now }
    ensures { (s : Source) (f : Forest) (p : Part) → IsCode code.now s f → p.production ≡ production → preorder p.below ≡ nodes.now →
        AreNames s (targets p) → IfOk result (λ numbers. numbers ≡ map (label_number s f) (targets p)) }
{
    let mut tokens = Items::new(alloc);
    labels::push_targets(alloc, &mut tokens, production, nodes)?;
    numbers_of(alloc, code, tokens.as_slice())
}

// The numbers of these labels.
fn numbers_of(alloc: Global, code: &code_places::Code, tokens: &[u32]) -> Result<Numbers, NoMemory>
    ensures { (s : Source) (f : Forest) → IsCode code.now s f → AreNames s tokens.now → IfOk result (λ numbers. numbers ≡ map (label_number s f) tokens.now) }
{
    let mut numbers = Items::with_capacity(alloc, tokens.len())?;
    for token in tokens {
        let number = code.label_number(alloc, *token)?;
        numbers.push(number)?;
    }
    Ok(numbers)
}

// Adds one that takes a method, a field or a type.
fn push_reference(
    all: &mut Code,
    alloc: Global,
    place: &Place,
    op: Op,
    production: u16,
    nodes: &[TreeNode],
) -> Result<(), NoMemory>
    requires forest { IsForest nodes.now }
    requires few { length nodes.now < 2 ^ 32 }
    ensures { (s : Source) (a : Around) (p : Part) → IsAt place.now s a → production ≡ p.production → preorder p.below ≡ nodes.now →
        IsInRange s p.production p.below → AllInRange s p.below → IfOk result (λ _. all.new ≡ all.old ++ instruction_with op (reference_operand s a p) ∷ []) }
{
    match production {
        INSTRUCTION_OP_METHOD => push_method(all, alloc, place, op, nodes),
        INSTRUCTION_OP_FIELD => push_field(all, alloc, place, op, nodes),
        INSTRUCTION_OP_TYPE => push_type(all, alloc, place, op, nodes),
        _ => push_token(all, alloc, place, op, nodes),
    }
}

// Adds `ldtoken`, which takes a method, a field or a type.
fn push_token(
    all: &mut Code,
    alloc: Global,
    place: &Place,
    op: Op,
    nodes: &[TreeNode],
) -> Result<(), NoMemory>
    requires forest { IsForest nodes.now }
    requires few { length nodes.now < 2 ^ 32 }
    ensures { (s : Source) (a : Around) (f : Forest) → IsAt place.now s a → preorder f ≡ nodes.now → AllInRange s f →
        IfOk result (λ _. all.new ≡ all.old ++ instruction_with op (token_operand s a f) ∷ []) }
{
    if has(nodes, TOKEN_OPERAND_METHOD) {
        return push_method(all, alloc, place, op, nodes);
    }
    if has(nodes, TOKEN_OPERAND_FIELD) {
        return push_field(all, alloc, place, op, nodes);
    }
    push_type(all, alloc, place, op, nodes)
}

// Adds one that takes the first type.
fn push_type(
    all: &mut Code,
    alloc: Global,
    place: &Place,
    op: Op,
    nodes: &[TreeNode],
) -> Result<(), NoMemory>
    requires { IsForest nodes.now }
    ensures { (s : Source) (a : Around) (f : Forest) → IsAt place.now s a → preorder f ≡ nodes.now → AllInRange s f →
        IfOk result (λ _. all.new ≡ all.old ++ instruction_with op (operand.Of (the_owner s a f)) ∷ []) }
{
    let owner = place.first_owner(alloc, nodes)?;
    push_owner(all, alloc, op, owner)
}

// Adds one that takes the first reference to a method, of which there is one.
fn push_method(
    all: &mut Code,
    alloc: Global,
    place: &Place,
    op: Op,
    nodes: &[TreeNode],
) -> Result<(), NoMemory>
    requires forest { IsForest nodes.now }
    requires few { length nodes.now < 2 ^ 32 }
    ensures { (s : Source) (a : Around) (f : Forest) → IsAt place.now s a → preorder f ≡ nodes.now → AllInRange s f → has METHOD_REF f ≡ true →
        IfOk result (λ _. all.new ≡ all.old ++ instruction_with op (operand.Method (method_ref s a (the METHOD_REF f))) ∷ []) }
{
    let reference = place.method_ref(alloc, the(nodes, METHOD_REF))?;
    push_method_ref(all, alloc, op, reference)
}

// Adds one that takes the first reference to a field, of which there is one.
fn push_field(
    all: &mut Code,
    alloc: Global,
    place: &Place,
    op: Op,
    nodes: &[TreeNode],
) -> Result<(), NoMemory>
    requires { IsForest nodes.now }
    ensures { (s : Source) (a : Around) (f : Forest) → IsAt place.now s a → preorder f ≡ nodes.now → AllInRange s f → has FIELD_REF f ≡ true →
        IfOk result (λ _. all.new ≡ all.old ++ instruction_with op (operand.Field (field_ref s a (the FIELD_REF f))) ∷ []) }
{
    let reference = place.field_ref(alloc, the(nodes, FIELD_REF))?;
    push_field_ref(all, alloc, op, reference)
}

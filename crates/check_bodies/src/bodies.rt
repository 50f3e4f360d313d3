//! All rules of bodies, asked of each method at once: what several of them ask for is found once (ECMA-335 II.5.4, II.15.4.1,
//! II.19, III.1.7.2).

ghost use Rattle.std.specs.Prelude.{◌≡◌, ◌==◌, IfOk, length, true};
ghost use Rattle.std.specs.List.{flat_map, list_any};
ghost use Rattle.source_model.specs.BodyNumbers.{body_numbers_out_of_range_in};
ghost use Rattle.source_model.specs.Bodies.{code};
ghost use Rattle.source_model.specs.Forest.{Forest, preorder};
ghost use Rattle.source_model.specs.Instructions.{instructions_of, labels, targets};
ghost use Rattle.source_model.specs.Nodes.{Node, nothing_around};
ghost use Rattle.source_model.specs.Source.{Source};
ghost use Rattle.source_syntax.specs.Labels.{AreLabels};
ghost use Rattle.source_nodes.specs.Least.{least};
ghost use Rattle.source_syntax.specs.Methods.{IsMethod};
ghost use Rattle.source_nodes.specs.Pieces.{ArePieces, AreParts};
ghost use Rattle.source_nodes.specs.Readers.{Reads};
ghost use Rattle.source_nodes.specs.Walk.{IsForest};
ghost use Rattle.check_visitor.specs.Surroundings.{found_in};
ghost use Rattle.check_bodies.specs.AllOfBodies.{backwards_in, body_broken, broken_in, ends_in, far_in, variables_in};
ghost use Rattle.check_bodies.specs.AmongNodes.{StandsIn};
ghost use Rattle.check_bodies.specs.MethodFaults.{naming_in, AreOperandFaults};
ghost use Rattle.check_bodies.specs.CodeLines.{IsPlain};
ghost use Rattle.check_bodies.specs.NamedVariables.{ServesVariables};
ghost use Rattle.check_bodies.specs.OperandRanges.{operand_at_fault};
ghost use Rattle.check_bodies.specs.PlainBodies.{is_plain};

use crate::body_numbers::misnumbered_local;
use crate::branch_rules::{all_targets, first_at};
use crate::clause_counts::clause_past_most;
use crate::clause_rules::first_backwards;
use crate::code_labels::labels_of;
use crate::code_lines::lines_in;
use crate::code_places::CodePlaces;
use crate::instruction_rules::first_in_code;
use crate::known_names::are_known;
use crate::label_faults::label_fault;
use crate::method_walk::first_by_method;
use crate::operand_ranges::{OperandRanges, has_ranged};
use crate::short_branches::Reach;
use crate::short_code::is_short_code;
use crate::sizes::offsets_of;
use crate::variable_rules::AmongVariables;
use crate::variables::{Variables, has_form};
use check_visitor::counts::local_past_most;
use check_visitor::ranges::{Limit, beyond_in_each};
use il_base::NoMemory;
use ilasm_grammar::{TreeNode, productions};
use source_nodes::least::sooner;
use source_nodes::pieces::Piece;
use source_nodes::reader::Reader;
use source_syntax::label_numbers::Labels;
use source_syntax::methods::MethodRule;
use std::alloc::Global;

/// The least token at which the body of a method among these nodes of a source breaks any of the rules.
pub fn body_fault(
    alloc: Global,
    reader: &Reader,
    nodes: &[TreeNode],
) -> Result<Option<u32>, NoMemory>
    requires { IsForest nodes.now }
    ensures { (s : Source) (f : Forest) → Reads reader.now s → preorder f ≡ nodes.now → StandsIn s f →
        IfOk result (λ k. k ≡ least (found_in body_broken s nothing_around f)) }
{
    let first = first_by_method(&AllOfBodies, alloc, reader, nodes)?;
    Ok(first)
}

// All rules of bodies.
struct AllOfBodies;

impl MethodRule for AllOfBodies {
    ghost broken = { λ _ s n. broken_in s n };

    fn first(
        &self,
        alloc: Global,
        reader: &Reader,
        below: &[TreeNode],
    ) -> Result<Option<u32>, NoMemory> {
        let lines = lines_in(alloc, below)?;
        let code = lines.instructions.as_slice();
        let names = lines.labels.as_slice();
        let naming = naming_fault(alloc, reader, below, code, names, lines.plain)?;
        let operands = operand_faults(alloc, reader, below, code)?;
        let number = number_fault(alloc, reader, below, operands.number, lines.plain)?;
        let clause = clause_fault(alloc, reader, below, lines.plain)?;
        let to_variable = sooner(naming, operands.variable);
        let to_number = sooner(to_variable, number);
        Ok(sooner(to_number, clause))
    }
}

// The least token at which a method breaks a rule of labels, from its instructions, the tokens of its labels, and whether it is
// plain.
fn naming_fault(
    alloc: Global,
    reader: &Reader,
    method: &[TreeNode],
    code: &[Piece],
    names: &[u32],
    plain: bool,
) -> Result<Option<u32>, NoMemory>
    requires forest { IsForest method.now }
    requires parts { AreParts method.now code.now }
    ensures { (s : Source) (n : Node) → Reads reader.now s → IsMethod s n → preorder n.below ≡ method.now → ArePieces method.now code.now (instructions_of n.below) →
        names.now ≡ labels n.below → (plain ≡ true → IsPlain method.now n.below) → IfOk result (λ k. k ≡ least (naming_in s n)) }
{
    if are_quiet(reader, method, code, names, plain) {
        return Ok(None);
    }
    looked_up_fault(alloc, reader, method, code, names, plain)
}

// The same, with the labels looked up.
#[inline(never)]
fn looked_up_fault(
    alloc: Global,
    reader: &Reader,
    method: &[TreeNode],
    code: &[Piece],
    names: &[u32],
    plain: bool,
) -> Result<Option<u32>, NoMemory>
    requires forest { IsForest method.now }
    requires parts { AreParts method.now code.now }
    ensures { (s : Source) (n : Node) → Reads reader.now s → IsMethod s n → preorder n.below ≡ method.now → ArePieces method.now code.now (instructions_of n.below) →
        names.now ≡ labels n.below → (plain ≡ true → IsPlain method.now n.below) → IfOk result (λ k. k ≡ least (naming_in s n)) }
{
    let labels = labels_of(alloc, reader, method, code, names)?;
    let targets = all_targets(alloc, method, code)?;
    let tokens = targets.as_slice();
    let label = label_fault(alloc, reader, method, code, tokens, &labels, plain)?;
    let far = branch_fault(alloc, reader, method, code, &labels)?;
    let end = end_fault(alloc, reader, code, tokens, &labels)?;
    let to_branch = sooner(label, far);
    Ok(sooner(to_branch, end))
}

// Whether the labels of a method surely break no rule, so that they needn't be looked up.
fn are_quiet(
    reader: &Reader,
    method: &[TreeNode],
    code: &[Piece],
    names: &[u32],
    plain: bool,
) -> bool
    requires { AreParts method.now code.now }
    ensures { (s : Source) (n : Node) → Reads reader.now s → IsMethod s n → ArePieces method.now code.now (instructions_of n.below) →
        names.now ≡ labels n.below → (plain ≡ true → IsPlain method.now n.below) → result ≡ true → None ≡ least (naming_in s n) }
{
    if !plain {
        return false;
    }
    if !is_short_code(code) {
        return false;
    }
    are_known(reader, method, code, names)
}

// The least name of a variable that isn't declared, and the least number that is out of its range, in a method's instructions.
#[derive(Clone, Copy, Drop)]
struct OperandFaults {
    variable: Option<u32>,
    number: Option<u32>,
}

fn operand_faults(
    alloc: Global,
    reader: &Reader,
    method: &[TreeNode],
    code: &[Piece],
) -> Result<OperandFaults, NoMemory>
    requires forest { IsForest method.now }
    requires parts { AreParts method.now code.now }
    ensures { (s : Source) (n : Node) → Reads reader.now s → IsMethod s n → preorder n.below ≡ method.now → ArePieces method.now code.now (instructions_of n.below) →
        IfOk result (AreOperandFaults s n) }
{
    if !has_ranged(code) {
        return Ok(OperandFaults {
            variable: None,
            number: None,
        });
    }
    ranged_faults(alloc, reader, method, code)
}

// The same where an instruction has such an operand.
#[inline(never)]
fn ranged_faults(
    alloc: Global,
    reader: &Reader,
    method: &[TreeNode],
    code: &[Piece],
) -> Result<OperandFaults, NoMemory>
    requires forest { IsForest method.now }
    requires parts { AreParts method.now code.now }
    ensures { (s : Source) (n : Node) → Reads reader.now s → IsMethod s n → preorder n.below ≡ method.now → ArePieces method.now code.now (instructions_of n.below) →
        IfOk result (AreOperandFaults s n) }
{
    let variables = Variables::read_for(alloc, reader, method, code)?;
    let variable = variable_fault(alloc, reader, method, code, &variables)?;
    let number = operand_fault(alloc, reader, method, code, &variables)?;
    Ok(OperandFaults { variable, number })
}

// The least name in an instruction that none of these variables has.
fn variable_fault(
    alloc: Global,
    reader: &Reader,
    method: &[TreeNode],
    code: &[Piece],
    variables: &Variables,
) -> Result<Option<u32>, NoMemory>
    requires { AreParts method.now code.now }
    ensures { (s : Source) (n : Node) → Reads reader.now s → IsMethod s n → ArePieces method.now code.now (instructions_of n.below) →
        ServesVariables variables.now s n.below → IfOk result (λ k. k ≡ least (variables_in s n)) }
{
    if !has_form(code, productions::INSTRUCTION_OP_VAR) {
        return Ok(None);
    }
    let rule = AmongVariables { variables };
    let first = first_in_code(&rule, alloc, reader, method, code)?;
    Ok(first)
}

// The least number or count of a method that is out of its range, from that of its instructions.
fn number_fault(
    alloc: Global,
    reader: &Reader,
    method: &[TreeNode],
    operand: Option<u32>,
    plain: bool,
) -> Result<Option<u32>, NoMemory>
    requires { IsForest method.now }
    ensures { (s : Source) (n : Node) → Reads reader.now s → IsMethod s n → preorder n.below ≡ method.now →
        operand ≡ least (flat_map (operand_at_fault s n.below) (instructions_of n.below)) → (plain ≡ true → is_plain method.now ≡ true) →
        IfOk result (λ k. k ≡ least (body_numbers_out_of_range_in s n)) }
{
    if plain {
        return Ok(operand);
    }
    let stack = beyond_in_each(
        reader,
        method,
        productions::ITEM_MAXSTACK,
        Limit::UpTo(0xFFFF),
    );
    let misnumbered = misnumbered_local(alloc, reader, method)?;
    let local = local_past_most(method);
    let clause = clause_past_most(method);
    let past = sooner(local, clause);
    let counts = sooner(misnumbered, past);
    let in_code = sooner(operand, counts);
    Ok(sooner(stack, in_code))
}

// The least number of an instruction that is out of its range.
fn operand_fault(
    alloc: Global,
    reader: &Reader,
    method: &[TreeNode],
    code: &[Piece],
    variables: &Variables,
) -> Result<Option<u32>, NoMemory>
    requires { AreParts method.now code.now }
    ensures { (s : Source) (n : Node) → Reads reader.now s → IsMethod s n → ArePieces method.now code.now (instructions_of n.below) →
        ServesVariables variables.now s n.below → IfOk result (λ k. k ≡ least (flat_map (operand_at_fault s n.below) (instructions_of n.below))) }
{
    if !has_ranged(code) {
        return Ok(None);
    }
    let rule = OperandRanges { variables };
    let first = first_in_code(&rule, alloc, reader, method, code)?;
    Ok(first)
}

// The least label behind a short branch that doesn't reach it.
fn branch_fault(
    alloc: Global,
    reader: &Reader,
    method: &[TreeNode],
    code: &[Piece],
    labels: &Labels,
) -> Result<Option<u32>, NoMemory>
    requires { AreParts method.now code.now }
    ensures { (s : Source) (n : Node) → Reads reader.now s → IsMethod s n → preorder n.below ≡ method.now →
        ArePieces method.now code.now (instructions_of n.below) → AreLabels labels.now s n.below → IfOk result (λ k. k ≡ least (far_in s n)) }
{
    if is_short_code(code) {
        return Ok(None);
    }
    let offsets = offsets_of(alloc, reader, method, code)?;
    let reach = Reach {
        labels,
        offsets: offsets.as_slice(),
    };
    let first = first_in_code(&reach, alloc, reader, method, code)?;
    Ok(first)
}

// The least first token of a clause that is empty or backwards.
fn clause_fault(
    alloc: Global,
    reader: &Reader,
    method: &[TreeNode],
    plain: bool,
) -> Result<Option<u32>, NoMemory>
    requires { IsForest method.now }
    ensures { (s : Source) (n : Node) → Reads reader.now s → IsMethod s n → preorder n.below ≡ method.now → (plain ≡ true → is_plain method.now ≡ true) →
        IfOk result (λ k. k ≡ least (backwards_in s n)) }
{
    if plain {
        return Ok(None);
    }
    let places = CodePlaces::read(alloc, reader, method)?;
    first_backwards(&places, alloc, reader, &[], method)
}

// The least of these names behind branches that no instruction follows.
fn end_fault(
    alloc: Global,
    reader: &Reader,
    code: &[Piece],
    tokens: &[u32],
    labels: &Labels,
) -> Result<Option<u32>, NoMemory>
    ensures { (s : Source) (n : Node) → Reads reader.now s → IsMethod s n → length code.now ≡ length (instructions_of n.below) →
        tokens.now ≡ flat_map targets (instructions_of n.below) → AreLabels labels.now s n.below → IfOk result (λ k. k ≡ least (ends_in s n)) }
{
    if !is_among(labels.numbers.as_slice(), code.len()) {
        return Ok(None);
    }
    first_at(alloc, reader, labels, tokens, code.len())
}

// Whether a number is one of these.
fn is_among(numbers: &[usize], number: usize) -> bool
    ensures { result ≡ list_any (λ n. n == number) numbers.now }
{
    numbers.iter().any(|n| *n == number)
}

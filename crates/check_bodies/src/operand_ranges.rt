//! Numbers and variables of instructions that are out of their ranges (ECMA-335 III.1.7.2, III.2.5, III.3.38, III.3.40, III.3.43).

ghost use Rattle.std.specs.Prelude.{◌≡◌, ◌∷◌, ◌++◌, [], if◌then◌else◌, pos, IfOk};
ghost use Rattle.std.specs.List.{list_any};
ghost use Rattle.ilasm_grammar.specs.declared.productions.TheConstants as production;
ghost use Rattle.source_model.specs.BodyNumbers.{fits_kind, greatest_variable, number_out_of_range, real_out_of_range, variable_out_of_range};
ghost use Rattle.source_model.specs.Forest.{Forest, Part, leaf_at, preorder};
ghost use Rattle.source_model.specs.OutOfRange.{fits_width};
ghost use Rattle.source_model.specs.Source.{Source};
ghost use Rattle.source_model.specs.TypeRules.{is_within, unless};
ghost use Rattle.source_model.specs.Values.{or_zero};
ghost use Rattle.source_nodes.specs.Derived.{FitsBody, HasBodies};
ghost use Rattle.source_nodes.specs.Least.{least};
ghost use Rattle.source_nodes.specs.Readers.{Reads};
ghost use Rattle.source_nodes.specs.Walk.{IsForest};
ghost use Rattle.check_bodies.specs.NamedVariables.{AreVariables, ServesVariables};
ghost use Rattle.check_visitor.specs.NumberTests.{bits_in};
ghost use Rattle.check_bodies.specs.OperandRanges.{is_ranged, operand_at_fault, real_size};

use crate::instruction_rules::InstructionRule;
use crate::variables::Variables;
use check_visitor::ranges::{Width, outside, outside_width, unless};
use il_base::NoMemory;
use ilasm_grammar::{TreeNode, productions};
use opcode_table::{OperandKind, kind_of};
use source_nodes::least::sooner;
use source_nodes::operations::op_of;
use source_nodes::pieces::Piece;
use source_nodes::reader::Reader;
use source_nodes::walk::{child, has, leaf_at, the};
use std::alloc::Global;

/// The numbers of instructions keep their ranges, in a method with these variables.
#[derive(Clone, Copy)]
pub struct OperandRanges<'a> {
    pub variables: &'a Variables,
}

impl<'a> InstructionRule for OperandRanges<'a> {
    ghost broken = { λ _ s n k. operand_at_fault s n.below k.1 };

    ghost knows = { λ rule s n. ServesVariables rule.variables.now s n.below };

    fn first(
        &self,
        alloc: Global,
        reader: &Reader,
        _number: usize,
        production: u16,
        below: &[TreeNode],
    ) -> Result<Option<u32>, NoMemory> {
        match production {
            productions::INSTRUCTION_OP_NUM => Ok(number(reader, below)),
            productions::INSTRUCTION_OP_REAL => real(alloc, reader, below),
            productions::INSTRUCTION_OP_VAR => variable(alloc, reader, self.variables, below),
            _ => Ok(None),
        }
    }
}

/// Whether one of these instructions has a number, or the number or the name of a variable.
pub fn has_ranged(code: &[Piece]) -> bool
    ensures { result ≡ list_any (λ x. is_ranged x.production) code.now }
{
    code.iter().any(|piece| is_ranged(piece.production))
}

fn is_ranged(production: u16) -> bool
    ensures { result ≡ is_ranged production }
{
    matches!(
        production,
        productions::INSTRUCTION_OP_NUM
            | productions::INSTRUCTION_OP_REAL
            | productions::INSTRUCTION_OP_VAR
    )
}

// The number of an instruction that is out of its range.
fn number(reader: &Reader, below: &[TreeNode]) -> Option<u32>
    requires { IsForest below.now }
    ensures { (s : Source) (p : Part) → Reads reader.now s → preorder p.below ≡ below.now → result ≡ least (number_out_of_range s p) }
{
    number_of_kind(reader, kind_of(op_of(reader, below)), leaf_at(below, 0))
}

// A number that an operand of this kind can't hold.
fn number_of_kind(reader: &Reader, kind: OperandKind, token: u32) -> Option<u32>
    ensures { (s : Source) → Reads reader.now s → result ≡ least (unless (fits_kind kind) s token) }
{
    match kind {
        OperandKind::Num8 => outside_width(reader, token, Width::Bits8),
        OperandKind::Num32 => outside_width(reader, token, Width::Bits32),
        OperandKind::Num64 => outside_width(reader, token, Width::Bits64),
        _ => outside(reader, token, 0, 0xFF),
    }
}

// The least token of bits of a real number that aren't as many as the instruction's, or that are out of their range.
fn real(alloc: Global, reader: &Reader, below: &[TreeNode]) -> Result<Option<u32>, NoMemory>
    requires { IsForest below.now }
    ensures { (s : Source) (p : Part) → Reads reader.now s → FitsBody s production.INSTRUCTION_OP_REAL p.below → HasBodies s p.below →
        preorder p.below ≡ below.now → IfOk result (λ k. k ≡ least (real_out_of_range s p)) }
{
    let size = real_size(kind_of(op_of(reader, below)));
    if has(below, productions::REAL_BITS_FLOAT32) {
        let bits = the(below, productions::REAL_BITS_FLOAT32);
        return Ok(real_number(reader, bits, size == 4, Width::Bits32));
    }
    if has(below, productions::REAL_BITS_FLOAT64) {
        let bits = the(below, productions::REAL_BITS_FLOAT64);
        return Ok(real_number(reader, bits, size == 8, Width::Bits64));
    }
    let token = leaf_at(the(below, productions::REAL_BITS_REAL_BYTES), 0);
    let bytes = reader.real_bytes(alloc, token)?;
    Ok(unless(size == bytes.len(), token))
}

// The bytes of the real number of an instruction.
fn real_size(kind: OperandKind) -> usize
    ensures { result ≡ real_size kind }
{
    match kind {
        OperandKind::Real4 => 4,
        _ => 8,
    }
}

// The word before a number of bits, unless they are as many as are wanted, and the number, unless it has this width.
fn real_number(reader: &Reader, bits: &[TreeNode], wanted: bool, width: Width) -> Option<u32>
    requires { IsForest bits.now }
    ensures { (s : Source) (f : Forest) → Reads reader.now s → preorder f ≡ bits.now →
        result ≡ least ((if wanted then [] else leaf_at 0 f ∷ []) ++ unless (fits_width (bits_in width)) s (leaf_at 2 f)) }
{
    let word = unless(wanted, leaf_at(bits, 0));
    let number = outside_width(reader, leaf_at(bits, 2), width);
    sooner(word, number)
}

// The number or the name of a variable whose number is out of its range.
fn variable(
    alloc: Global,
    reader: &Reader,
    variables: &Variables,
    below: &[TreeNode],
) -> Result<Option<u32>, NoMemory>
    requires { IsForest below.now }
    ensures { (s : Source) (f : Forest) (p : Part) → Reads reader.now s → AreVariables variables.now s f → FitsBody s production.INSTRUCTION_OP_VAR p.below →
        HasBodies s p.below → preorder p.below ≡ below.now → IfOk result (λ k. k ≡ least (variable_out_of_range s f p)) }
{
    let op = op_of(reader, below);
    let most = greatest_variable(kind_of(op));
    if has(below, productions::INDEX_NAME) {
        let token = leaf_at(child(below, productions::INDEX_NAME), 0);
        let number = variables.number_of(alloc, reader, op, token)?;
        Ok(unless(is_at_most(number, usize::from(most)), token))
    } else {
        let token = leaf_at(child(below, productions::INDEX_INT), 0);
        Ok(up_to(reader, token, most))
    }
}

// The token, unless its number lies from 0 to another.
fn up_to(reader: &Reader, token: u32, most: u16) -> Option<u32>
    ensures { (s : Source) → Reads reader.now s → result ≡ least (unless (is_within (pos 0) (pos most)) s token) }
{
    outside(reader, token, 0, i128::from(most))
}

// The greatest number of a variable in an operand of this kind.
fn greatest_variable(kind: OperandKind) -> u16
    ensures { result ≡ greatest_variable kind }
{
    match kind {
        OperandKind::Var8 => 0xFF,
        _ => 0xFFFF,
    }
}

// Whether a number, where there is one, is at most another.
fn is_at_most(number: Option<usize>, most: usize) -> bool
    ensures { result ≡ is_within (pos 0) (pos most) (pos (or_zero number)) }
{
    match number {
        Some(n) => n <= most,
        None => true,
    }
}

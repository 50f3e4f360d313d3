ghost use Rattle.std.specs.Prelude.{◌≡◌, ◌≤◌, ◌≢◌, ◌++◌, [], ◌∷◌, ℕ, List, length, take, drop, IfSome, IfNone};
ghost use Rattle.byteorder.specs.Endian.{little_number};
ghost use Rattle.opcode_table.specs.declared.op.Op.{Op};
ghost use Rattle.opcode_table.specs.declared.kind.OperandKind.TheVariants as kinds;
ghost use Rattle.body_codec.specs.Instruction.{opcode_bytes, kind, operand_size};

use byteorder::{ByteOrder, LittleEndian};
use opcode_table::{Op, OperandKind, kind_of, op_of_bytes, operand_size};

/// What stands behind an opcode.
#[tactic(auto, unfolding(crate::specs::Instruction::kind))]
pub(crate) fn kind(op: Op) -> OperandKind
    ensures { result ≡ kind op }
{
    kind_of(op)
}

/// The opcode at the front, and how many bytes it has (ECMA-335 III.1.2).
pub(crate) fn op_at(rest: &[u8]) -> Option<(Op, usize)>
    ensures found { IfSome result (λ r. rest.now ≡ opcode_bytes r.0 ++ drop r.1 rest.now) }
    ensures inside { IfSome result (λ r. r.1 ≤ length rest.now) }
    ensures none { IfNone result ((op : Op) (more : List ℕ) → rest.now ≡ opcode_bytes op ++ more → ⊥) }
{
    match rest {
        [] => None,
        [0xFE] => None,
        [0xFE, second, ..] => long_op(*second, rest),
        [first, ..] => short_op(*first, rest),
    }
}

/// The opcode that one byte is.
fn short_op(first: u8, rest: &[u8]) -> Option<(Op, usize)>
    requires some { 1 ≤ length rest.now }
    requires front { take 1 rest.now ≡ first ∷ [] }
    requires short { first ≢ 0xFE }
    ensures found { IfSome result (λ r. rest.now ≡ opcode_bytes r.0 ++ drop r.1 rest.now) }
    ensures inside { IfSome result (λ r. r.1 ≤ length rest.now) }
    ensures none { IfNone result ((op : Op) (more : List ℕ) → rest.now ≡ opcode_bytes op ++ more → ⊥) }
{
    let op = op_of_bytes(first, None)?;
    Some((op, 1))
}

/// The opcode that a byte is behind 0xFE.
fn long_op(second: u8, rest: &[u8]) -> Option<(Op, usize)>
    requires some { 2 ≤ length rest.now }
    requires front { take 2 rest.now ≡ 0xFE ∷ second ∷ [] }
    ensures found { IfSome result (λ r. rest.now ≡ opcode_bytes r.0 ++ drop r.1 rest.now) }
    ensures inside { IfSome result (λ r. r.1 ≤ length rest.now) }
    ensures none { IfNone result ((op : Op) (more : List ℕ) → rest.now ≡ opcode_bytes op ++ more → ⊥) }
{
    let op = op_of_bytes(0xFE, Some(second))?;
    Some((op, 2))
}

/// The size of the operand of this kind at the front, in bytes. None where it is cut.
#[tactic(auto, using(crate::proofs::Widths::fixed_size))]
pub(crate) fn operand_length(kind: OperandKind, rest: &[u8]) -> Option<usize>
    ensures found { IfSome result (λ n. n ≡ operand_size kind (take n rest.now)) }
    ensures inside { IfSome result (λ n. n ≤ length rest.now) }
    ensures none { IfNone result ((tail more : List ℕ) → rest.now ≡ tail ++ more → length tail ≡ operand_size kind tail → ⊥) }
{
    if kind == OperandKind::Switch {
        return switch_length(rest);
    }
    let size = operand_size(kind);
    if size <= rest.len() { Some(size) } else { None }
}

/// That of a switch: a count, and as many displacements of four bytes (ECMA-335 III.3.66).
fn switch_length(rest: &[u8]) -> Option<usize>
    ensures found { IfSome result (λ n. n ≡ operand_size kinds.Switch (take n rest.now)) }
    ensures inside { IfSome result (λ n. n ≤ length rest.now) }
    ensures none { IfNone result ((tail more : List ℕ) → rest.now ≡ tail ++ more → length tail ≡ operand_size kinds.Switch tail → ⊥) }
{
    if rest.len() < 4 {
        return None;
    }
    let count = LittleEndian::read_u32(rest) as usize;
    if count <= (rest.len() - 4) / 4 {
        Some(4 + 4 * count)
    } else {
        None
    }
}

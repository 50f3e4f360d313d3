ghost use Rattle.std.specs.Prelude.{◌≡◌, ◌<◌, ◌^◌, ◌++◌, ℕ, List, length, drop, IfOk, IfErr};
ghost use Rattle.opcode_table.specs.declared.op.Op.{Op};
ghost use Rattle.body_codec.specs.Instruction.{opcode_bytes};
ghost use Rattle.body_codec.specs.Reading.{IsMark, AreMarks, IsStop, IsScanFault};

use super::opcode::{kind, op_at, operand_length};
use crate::BodyFault;
use il_lists::Items;
use opcode_table::Op;
use std::alloc::Global;

/// Where an instruction stands in the code, in bytes (ECMA-335 III.1.2, III.1.9).
#[derive(Clone, Copy)]
pub struct Mark {
    /// Its opcode.
    pub op: Op,
    /// Where it begins.
    pub start: u32,
    /// Where its operand begins.
    pub operand: u32,
    /// Where it ends.
    pub end: u32,
}

/// Where instructions stand, in order.
pub type Marks = Items<Mark>;

/// Where the instructions of the code stand, or the first that isn't known or is cut.
pub(crate) fn read_marks(alloc: Global, code: &[u8]) -> Result<Marks, BodyFault>
    requires { length code.now < 2 ^ 32 }
    ensures found { IfOk result (AreMarks code.now) }
    ensures fault { IfErr result (IsScanFault code.now) }
{
    let mut marks = Items::new(alloc);
    let mut at = 0;
    while at < code.len() {
        let mark = mark_at(code, at)?;
        marks.push(mark)?;
        at = mark.end as usize;
    }
    Ok(marks)
}

/// The instruction that stands at `at`.
fn mark_at(code: &[u8], at: usize) -> Result<Mark, BodyFault>
    requires within { at < length code.now }
    requires small { length code.now < 2 ^ 32 }
    ensures start { IfOk result (λ m. m.start ≡ at) }
    ensures found { IfOk result (IsMark code.now) }
    ensures fault { IfErr result (IsStop at (drop at code.now)) }
{
    let Some((op, size)) = op_at(&code[at..]) else {
        return Err(unknown(at as u32, &code[at..]));
    };
    let operand = at + size;
    let Some(length) = operand_length(kind(op), &code[operand..]) else {
        return Err(BodyFault::Cut { offset: at as u32 });
    };
    Ok(Mark {
        op,
        start: at as u32,
        operand: operand as u32,
        end: (operand + length) as u32,
    })
}

/// The fault where no opcode begins: 0xFE alone is cut.
fn unknown(offset: u32, rest: &[u8]) -> BodyFault
    ensures { ((op : Op) (more : List ℕ) → rest.now ≡ opcode_bytes op ++ more → ⊥) → IsStop offset rest.now result }
{
    if rest.len() == 1 && rest[0] == 0xFE {
        BodyFault::Cut { offset }
    } else {
        BodyFault::Opcode { offset }
    }
}

ghost use Rattle.std.specs.Prelude.{◌≡◌, sum_by};
ghost use Rattle.body_codec.specs.Reading.{piece_of, pieces_of, IsMark, AreMarks};
ghost use Rattle.body_outlines.specs.Outlines.{targets_in};

use crate::forms::kind;
use body_codec::Mark;
use byteorder::{ByteOrder, LittleEndian};
use opcode_table::OperandKind;

/// How many targets the switches of the code have together (ECMA-335 III.3.66).
pub(crate) fn targets_of(code: &[u8], marks: &[Mark]) -> u32
    requires { AreMarks code.now marks.now }
    ensures { result ≡ sum_by targets_in (pieces_of code.now marks.now) }
{
    let mut targets = 0;
    for mark in marks {
        targets += targets_at(code, mark);
    }
    targets
}

/// How many targets an instruction has, where it is a switch.
fn targets_at(code: &[u8], mark: &Mark) -> u32
    requires { IsMark code.now mark.now }
    ensures { result ≡ targets_in (piece_of code.now mark.now) }
{
    match kind(mark.op) {
        OperandKind::Switch => {
            LittleEndian::read_u32(&code[mark.operand as usize..mark.end as usize])
        }
        _ => 0,
    }
}

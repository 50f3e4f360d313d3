ghost use Rattle.std.specs.Prelude.{◌≡◌, ◌<◌, ◌-ℤ◌, [], pos, ◌↔◌, IsTrue};
ghost use Rattle.body_codec.specs.Chains.{IsFirstWith};
ghost use Rattle.body_codec.specs.Encoding.{FitsBytes};
ghost use Rattle.body_codec.specs.Instruction.{operand_size};

use opcode_table::{OperandKind, operand_size};

/// A place in the code for a displacement (ECMA-335 III.1.7.2).
#[derive(Clone, Copy, Drop)]
pub(crate) struct Site {
    /// The number of the instruction that it belongs to.
    pub at: u32,
    /// What the operand of that instruction is.
    pub kind: OperandKind,
    /// Where it stands, in bytes of the code.
    pub place: u32,
    /// Where the next instruction begins. The displacement counts from there.
    pub end: u32,
    /// The number of the instruction that it leads to.
    pub to: u32,
    /// The site before it that waits for the same instruction.
    pub before: Option<u32>,
}

/// How far it is from the end of an instruction to another one, in bytes.
pub(crate) fn displacement(offset: u32, end: u32) -> i64
    ensures { result ≡ pos offset -ℤ pos end }
{
    i64::from(offset) - i64::from(end)
}

/// The first short branch that doesn't reach, of `first` and of a site with this displacement.
pub(crate) fn first_far(first: Option<u32>, site: &Site, distance: i64) -> Option<u32>
    ensures { IsFirstWith first site.now distance result }
{
    if site.kind != OperandKind::Branch8 || is_byte(distance) {
        return first;
    }
    match first {
        Some(at) if at <= site.at => first,
        _ => Some(site.at),
    }
}

/// Whether a signed byte holds the number.
fn is_byte(number: i64) -> bool
    ensures { IsTrue result ↔ FitsBytes 1 number }
{
    (-128..128).contains(&number)
}

/// How many bytes an operand of this kind has; of a switch, the count or a displacement.
pub(crate) fn width(kind: OperandKind) -> usize
    ensures size { result ≡ operand_size kind [] }
    ensures small { result < 9 }
{
    operand_size(kind)
}

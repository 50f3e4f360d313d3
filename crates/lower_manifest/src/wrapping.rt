//! Numbers in the widths of what holds them: those of integer types, and those of operands (ECMA-335 II.16.2, III.3.40).

ghost use Rattle.std.specs.Prelude.{◌≡◌, ◌*◌, ◌%◌, ◌^◌, ℤ, pos, ◌-ℤ◌, nat_lt, if◌then◌else◌};
ghost use Rattle.source_model.specs.Constants.{integer_of, signed_of, wrapped};
ghost use Rattle.source_model.specs.Operands.{number_in};

use opcode_table::OperandKind;
use type_terms::Prim;

/// The number that an integer type holds, from the lowest 64 bits of one.
pub fn integer_of(of: Prim, bits: u64) -> i128
    ensures { (z : ℤ) → bits ≡ wrapped 64 z → result ≡ integer_of of z }
{
    match of {
        Prim::I1 => signed_8(bits),
        Prim::I2 => signed_16(bits),
        Prim::I4 => signed_32(bits),
        Prim::I8 => signed_64(bits),
        Prim::U1 => i128::from(bits % 0x100),
        Prim::U2 => i128::from(bits % 0x1_0000),
        Prim::U4 => i128::from(bits % 0x1_0000_0000),
        Prim::U8 => i128::from(bits),
        _ => 0,
    }
}

/// The number that an operand holds, from the lowest 64 bits of one.
pub fn number_in(kind: OperandKind, bits: u64) -> i128
    ensures { (z : ℤ) → bits ≡ wrapped 64 z → result ≡ number_in kind z }
{
    match kind {
        OperandKind::Num8 => signed_8(bits),
        OperandKind::Num32 => signed_32(bits),
        OperandKind::Num64 => signed_64(bits),
        _ => i128::from(bits % 0x100),
    }
}

/// The lowest 32 bits of a number, from its lowest 64.
pub fn low_32(bits: u64) -> u32
    ensures { (z : ℤ) → bits ≡ wrapped 64 z → result ≡ wrapped 32 z }
{
    (bits % 0x1_0000_0000) as u32
}

fn signed_8(bits: u64) -> i128
    ensures { result ≡ signed_of 8 (bits % 2 ^ 8) }
{
    signed(bits % 0x100, 0x80)
}

fn signed_16(bits: u64) -> i128
    ensures { result ≡ signed_of 16 (bits % 2 ^ 16) }
{
    signed(bits % 0x1_0000, 0x8000)
}

fn signed_32(bits: u64) -> i128
    ensures { result ≡ signed_of 32 (bits % 2 ^ 32) }
{
    signed(bits % 0x1_0000_0000, 0x8000_0000)
}

fn signed_64(bits: u64) -> i128
    ensures { result ≡ signed_of 64 bits }
{
    signed(bits, 0x8000_0000_0000_0000)
}

// A number, less twice the half where it is that or more.
fn signed(bits: u64, half: u64) -> i128
    ensures { result ≡ (if nat_lt bits half then pos bits else pos bits -ℤ pos (2 * half)) }
{
    if bits < half {
        i128::from(bits)
    } else {
        i128::from(bits) - 2 * i128::from(half)
    }
}

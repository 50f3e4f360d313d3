ghost use Rattle.std.specs.Prelude.{◌≡◌, ◌==◌, ◌*◌, ◌-◌, ◌<◌, ◌^◌, pos, negsuc, nat_lt, if◌then◌else◌, find, option_and_then};
ghost use Rattle.assembly_tree.specs.declared.members.Constant.TheVariants as constant;
ghost use Rattle.byteorder.specs.Endian.{little_number};
ghost use Rattle.constant_values.specs.Signs.{integer, sign_of};
ghost use Rattle.image_model.specs.Constants.{integers, integer_constant, integer_number, of_width};

use assembly_tree::Constant;
use byteorder::{ByteOrder, LittleEndian};
use type_terms::Prim;

/// The integer of an element type and a value, or None where the element type is no integer's or the value hasn't its width.
pub(crate) fn integer_of(element: u32, value: &[u8]) -> Option<Constant>
    ensures { result ≡ option_and_then (integer_constant value.now) (find (λ t. t.element == element) integers) }
{
    match element {
        0x04 => one_byte(Prim::I1, value, true),
        0x05 => one_byte(Prim::U1, value, false),
        0x06 => two_bytes(Prim::I2, value, true),
        0x07 => two_bytes(Prim::U2, value, false),
        0x08 => four_bytes(Prim::I4, value, true),
        0x09 => four_bytes(Prim::U4, value, false),
        0x0A => eight_bytes(Prim::I8, value, true),
        0x0B => eight_bytes(Prim::U8, value, false),
        _ => None,
    }
}

/// An integer of one byte.
fn one_byte(of: Prim, value: &[u8], signed: bool) -> Option<Constant>
    ensures { result ≡ of_width 1 value.now (constant.Int of (integer_number (integer of 1 signed) value.now)) }
{
    if value.len() == 1 {
        let value = with_sign(u64::from(value[0]), 0x80, signed);
        Some(Constant::Int { of, value })
    } else {
        None
    }
}

/// An integer of two bytes.
fn two_bytes(of: Prim, value: &[u8], signed: bool) -> Option<Constant>
    ensures { result ≡ of_width 2 value.now (constant.Int of (integer_number (integer of 2 signed) value.now)) }
{
    if value.len() == 2 {
        let value = with_sign(u64::from(LittleEndian::read_u16(value)), 0x8000, signed);
        Some(Constant::Int { of, value })
    } else {
        None
    }
}

/// An integer of four bytes.
fn four_bytes(of: Prim, value: &[u8], signed: bool) -> Option<Constant>
    ensures { result ≡ of_width 4 value.now (constant.Int of (integer_number (integer of 4 signed) value.now)) }
{
    if value.len() == 4 {
        let value = with_sign(
            u64::from(LittleEndian::read_u32(value)),
            0x8000_0000,
            signed,
        );
        Some(Constant::Int { of, value })
    } else {
        None
    }
}

/// An integer of eight bytes.
fn eight_bytes(of: Prim, value: &[u8], signed: bool) -> Option<Constant>
    ensures { result ≡ of_width 8 value.now (constant.Int of (integer_number (integer of 8 signed) value.now)) }
{
    if value.len() == 8 {
        let value = with_sign(LittleEndian::read_u64(value), 0x8000_0000_0000_0000, signed);
        Some(Constant::Int { of, value })
    } else {
        None
    }
}

/// A number without a sign, or in two's complement where half of all numbers are negative.
fn with_sign(number: u64, half: u64, signed: bool) -> i128
    requires { number < 2 * half }
    ensures { result ≡ sign_of number half signed }
{
    if !signed || number < half {
        i128::from(number)
    } else {
        i128::from(number) - 2 * i128::from(half)
    }
}

//! Constants as they stand in an image (ECMA-335 II.22.9, II.23.1.16).
ghost use Rattle.std.specs.Prelude.{◌≡◌, ◌≤◌, ◌^◌, ◌<◌, length, IfOk};
ghost use Rattle.image_members.specs.Constants.{integer_element, integer_width, element_of, value_of};

use assembly_tree::Constant;
use il_base::{Bytes, NoMemory};
use image_tokens::heap_contents::bytes_of_units;
use std::alloc::Global;
use type_terms::Prim;

/// The element type of a constant.
#[tactic(auto, unfolding(crate::specs::Constants::element_of))]
pub fn element_of(constant: &Constant) -> u8
    ensures { result ≡ element_of constant.now }
{
    match constant {
        Constant::Bool(_) => 0x02,
        Constant::Char(_) => 0x03,
        Constant::Int { of, .. } => integer_element(*of),
        Constant::Real4(_) => 0x0C,
        Constant::Real8(_) => 0x0D,
        Constant::Str(_) => 0x0E,
        Constant::Null => 0x12,
    }
}

/// The bytes of a constant's value.
#[tactic(auto, unfolding(crate::specs::Constants::value_of))]
pub fn value_of(alloc: Global, constant: &Constant) -> Result<Bytes, NoMemory>
    requires { length (value_of constant.now) < 2 ^ 32 }
    ensures { IfOk result (λ bytes. bytes ≡ value_of constant.now) }
{
    match constant {
        Constant::Bool(value) => Bytes::from_slice(alloc, &[u8::from(*value)]),
        Constant::Char(unit) => Bytes::from_slice(alloc, &unit.to_le_bytes()),
        Constant::Int { of, value } => {
            let bytes = value.cast_unsigned().to_le_bytes();
            Bytes::from_slice(alloc, &bytes[..integer_width(*of)])
        }
        Constant::Real4(bits) => Bytes::from_slice(alloc, &bits.to_le_bytes()),
        Constant::Real8(bits) => Bytes::from_slice(alloc, &bits.to_le_bytes()),
        Constant::Str(units) => bytes_of_units(alloc, units),
        Constant::Null => Bytes::from_slice(alloc, &[0; 4]),
    }
}

/// An integer type as an element type.
fn integer_element(of: Prim) -> u8
    ensures { result ≡ integer_element of }
{
    match of {
        Prim::I1 => 0x04,
        Prim::U1 => 0x05,
        Prim::I2 => 0x06,
        Prim::U2 => 0x07,
        Prim::I4 => 0x08,
        Prim::U4 => 0x09,
        Prim::I8 => 0x0A,
        Prim::U8 => 0x0B,
        _ => 0,
    }
}

/// How many bytes the values of an integer type have.
fn integer_width(of: Prim) -> usize
    ensures width { result ≡ integer_width of }
    ensures few { result ≤ 8 }
{
    match of {
        Prim::I1 | Prim::U1 => 1,
        Prim::I2 | Prim::U2 => 2,
        Prim::I4 | Prim::U4 => 4,
        Prim::I8 | Prim::U8 => 8,
        _ => 0,
    }
}

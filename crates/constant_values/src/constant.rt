ghost use Rattle.std.specs.Prelude.{◌≡◌, ◌==◌, not, slice_index, option_map, IfOk, Some, None};
ghost use Rattle.assembly_tree.specs.declared.members.Constant.TheVariants as constant;
ghost use Rattle.byteorder.specs.Endian.{little_number};
ghost use Rattle.image_model.specs.Constants.{constant_of, of_width};
ghost use Rattle.image_model.specs.Units.{units_of};

use crate::integers::integer_of;
use crate::units::units_of;
use assembly_tree::Constant;
use byteorder::{ByteOrder, LittleEndian};
use il_base::NoMemory;
use std::alloc::Global;

/// The constant of an element type and a value, or None where the value hasn't the type's width (II.22.9).
#[tactic(auto, unfolding(image_model::specs::Constants::constant_of))]
pub fn constant_of(alloc: Global, element: u32, value: &[u8]) -> Result<Option<Constant>, NoMemory>
    ensures { IfOk result (λ c. c ≡ constant_of element value.now) }
{
    match element {
        0x02 => Ok(bool_of(value)),
        0x03 => Ok(char_of(value)),
        0x0C => Ok(real4_of(value)),
        0x0D => Ok(real8_of(value)),
        0x0E => text_of(alloc, value),
        0x12 => Ok(null_of(value)),
        _ => Ok(integer_of(element, value)),
    }
}

/// True where the one byte isn't 0.
fn bool_of(value: &[u8]) -> Option<Constant>
    ensures { result ≡ of_width 1 value.now (constant.Bool (not (slice_index value.now 0 == 0))) }
{
    if value.len() == 1 {
        Some(Constant::Bool(value[0] != 0))
    } else {
        None
    }
}

/// A character of two bytes.
fn char_of(value: &[u8]) -> Option<Constant>
    ensures { result ≡ of_width 2 value.now (constant.Char (little_number 2 value.now)) }
{
    if value.len() == 2 {
        Some(Constant::Char(LittleEndian::read_u16(value)))
    } else {
        None
    }
}

/// The bits of a real number of four bytes.
fn real4_of(value: &[u8]) -> Option<Constant>
    ensures { result ≡ of_width 4 value.now (constant.Real4 (little_number 4 value.now)) }
{
    if value.len() == 4 {
        Some(Constant::Real4(LittleEndian::read_u32(value)))
    } else {
        None
    }
}

/// The bits of a real number of eight bytes.
fn real8_of(value: &[u8]) -> Option<Constant>
    ensures { result ≡ of_width 8 value.now (constant.Real8 (little_number 8 value.now)) }
{
    if value.len() == 8 {
        Some(Constant::Real8(LittleEndian::read_u64(value)))
    } else {
        None
    }
}

/// Null, whose value has four bytes.
fn null_of(value: &[u8]) -> Option<Constant>
    ensures { result ≡ of_width 4 value.now constant.Null }
{
    if value.len() == 4 {
        Some(Constant::Null)
    } else {
        None
    }
}

/// A text of whole units.
fn text_of(alloc: Global, value: &[u8]) -> Result<Option<Constant>, NoMemory>
    ensures { IfOk result (λ c. c ≡ option_map constant.Str (units_of value.now)) }
{
    match units_of(alloc, value)? {
        Some(units) => Ok(Some(Constant::Str(units))),
        None => Ok(None),
    }
}

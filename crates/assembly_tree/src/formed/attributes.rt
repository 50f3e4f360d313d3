ghost use Rattle.std.specs.Prelude.{◌≡◌};
ghost use Rattle.assembly_tree.specs.WellFormedMembers.{is_attribute, is_integer, is_constant};

use super::formed_parts::Formed;
use super::references::is_plain_ref;
use crate::{Assembly, Attribute, Constant};
use type_terms::Prim;

impl Formed for Attribute {
    ghost formed = { is_attribute };

    #[tactic(auto, unfolding(crate::specs::WellFormedMembers::is_attribute))]
    fn is_formed(&self, a: &Assembly) -> bool {
        is_plain_ref(a, &self.constructor)
    }
}

impl Formed for Constant {
    ghost formed = { λ a c. is_constant c };

    fn is_formed(&self, _a: &Assembly) -> bool {
        match self {
            Constant::Int { of, value } => is_integer(*of, *value),
            Constant::Bool(_)
            | Constant::Char(_)
            | Constant::Real4(_)
            | Constant::Real8(_)
            | Constant::Str(_)
            | Constant::Null => true,
        }
    }
}

/// Whether the type is one of int8 to uint64, and the number is in its range.
fn is_integer(of: Prim, value: i128) -> bool
    ensures { result ≡ is_integer of value }
{
    match of {
        Prim::I1 => value >= -0x80 && value <= 0x7F,
        Prim::U1 => value >= 0 && value <= 0xFF,
        Prim::I2 => value >= -0x8000 && value <= 0x7FFF,
        Prim::U2 => value >= 0 && value <= 0xFFFF,
        Prim::I4 => value >= -0x8000_0000 && value <= 0x7FFF_FFFF,
        Prim::U4 => value >= 0 && value <= 0xFFFF_FFFF,
        Prim::I8 => value >= -0x8000_0000_0000_0000 && value <= 0x7FFF_FFFF_FFFF_FFFF,
        Prim::U8 => value >= 0 && value <= 0xFFFF_FFFF_FFFF_FFFF,
        Prim::Void
        | Prim::Bool
        | Prim::Char
        | Prim::R4
        | Prim::R8
        | Prim::Str
        | Prim::Object
        | Prim::TypedRef
        | Prim::NInt
        | Prim::NUint => false,
    }
}

//! The sizes of types in data (ECMA-335 II.16.3).

ghost use Rattle.std.specs.Prelude.{◌≡◌};
ghost use Rattle.assembly_tree.specs.DataSize.{primitive_size};
ghost use Rattle.lower_members.specs.ClassSizes.{AreSizes};
ghost use Rattle.source_model.specs.Data.{data_size};
ghost use Rattle.source_model.specs.Source.{Source};

use crate::class_sizes::ClassSizes;
use type_terms::{Prim, SigType};

/// The bytes that a value of a type has in data, where that is stated. Takes no memory.
pub fn data_size(sizes: &ClassSizes, of: &SigType) -> Option<u32>
    ensures { (s : Source) → AreSizes s sizes.now → result ≡ data_size s of.now }
{
    match of {
        SigType::Prim(prim) => primitive_size(*prim),
        SigType::Value(name) => sizes.of_name(name),
        SigType::Mod { of, .. } => data_size(sizes, of.get()),
        SigType::Class(_)
        | SigType::Inst { .. }
        | SigType::Var(_)
        | SigType::MVar(_)
        | SigType::SzArray(_)
        | SigType::Array { .. }
        | SigType::ByRef(_)
        | SigType::Pointer(_)
        | SigType::Pinned(_) => None,
    }
}

// The width of a primitive type, where it has one.
fn primitive_size(prim: Prim) -> Option<u32>
    ensures { result ≡ primitive_size prim }
{
    match prim {
        Prim::Bool | Prim::I1 | Prim::U1 => Some(1),
        Prim::Char | Prim::I2 | Prim::U2 => Some(2),
        Prim::I4 | Prim::U4 | Prim::R4 => Some(4),
        Prim::I8 | Prim::U8 | Prim::R8 => Some(8),
        Prim::Void | Prim::Str | Prim::Object | Prim::TypedRef | Prim::NInt | Prim::NUint => None,
    }
}

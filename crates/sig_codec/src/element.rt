ghost use Rattle.std.specs.Prelude.{◌≡◌};
ghost use Rattle.sig_codec.specs.Reading.{element_of};

use type_terms::Prim;

/// The byte that begins the spelling of a type (ECMA-335 II.23.1.16).
#[derive(Clone, Copy)]
pub enum Element {
    Prim(Prim),
    Pointer,
    ByRef,
    Value,
    Class,
    Var,
    Array,
    Inst,
    SzArray,
    MVar,
    /// A modifier that is required.
    Required,
    /// A modifier that is optional.
    Optional,
    Pinned,
}

impl Element {
    /// The element that `byte` is, or None where no type begins so.
    #[tactic(auto, unfolding(crate::specs::Reading::element_of))]
    pub fn of(byte: u8) -> Option<Element>
        ensures { result ≡ element_of byte }
    {
        let element = match byte {
            0x01 => Element::Prim(Prim::Void),
            0x02 => Element::Prim(Prim::Bool),
            0x03 => Element::Prim(Prim::Char),
            0x04 => Element::Prim(Prim::I1),
            0x05 => Element::Prim(Prim::U1),
            0x06 => Element::Prim(Prim::I2),
            0x07 => Element::Prim(Prim::U2),
            0x08 => Element::Prim(Prim::I4),
            0x09 => Element::Prim(Prim::U4),
            0x0A => Element::Prim(Prim::I8),
            0x0B => Element::Prim(Prim::U8),
            0x0C => Element::Prim(Prim::R4),
            0x0D => Element::Prim(Prim::R8),
            0x0E => Element::Prim(Prim::Str),
            0x0F => Element::Pointer,
            0x10 => Element::ByRef,
            0x11 => Element::Value,
            0x12 => Element::Class,
            0x13 => Element::Var,
            0x14 => Element::Array,
            0x15 => Element::Inst,
            0x16 => Element::Prim(Prim::TypedRef),
            0x18 => Element::Prim(Prim::NInt),
            0x19 => Element::Prim(Prim::NUint),
            0x1C => Element::Prim(Prim::Object),
            0x1D => Element::SzArray,
            0x1E => Element::MVar,
            0x1F => Element::Required,
            0x20 => Element::Optional,
            0x45 => Element::Pinned,
            _ => return None,
        };
        Some(element)
    }
}

//! The bits that words for flags stand for (ECMA-335 II.23.1).

ghost use Rattle.std.specs.Prelude.{◌≡◌, Some};
ghost use Rattle.source_model.specs.Flags.{assembly_words, field_words, implementation_words, method_words, nested_words, parameter_words, property_words, typar_words, type_words};
ghost use Rattle.source_flags.specs.FlagWords.{IsFlagOf};

use il_lexer::word;

/// The bits of a group of flags, and the value that a word gives them.
#[derive(Debug, Clone, Copy, Drop)]
pub struct Bits {
    pub group: u32,
    pub value: u32,
}

fn sets(group: u32, value: u32) -> Option<Bits>
    ensures { result ≡ Some (record { group = group; value = value }) }
{
    Some(Bits { group, value })
}

/// A word for the flags of a type (ECMA-335 II.10.1, II.23.1.15).
pub fn type_word(word: u16) -> Option<Bits>
    ensures { IsFlagOf type_words word result }
{
    match word {
        word::PRIVATE => sets(7, 0),
        word::PUBLIC => sets(7, 1),
        word::AUTO => sets(0x18, 0),
        word::SEQUENTIAL => sets(0x18, 8),
        word::EXPLICIT => sets(0x18, 0x10),
        word::ANSI => sets(0x30000, 0),
        word::UNICODE => sets(0x30000, 0x10000),
        word::AUTOCHAR => sets(0x30000, 0x20000),
        word::INTERFACE => sets(0x20, 0x20),
        word::ABSTRACT => sets(0x80, 0x80),
        word::SEALED => sets(0x100, 0x100),
        word::SPECIALNAME => sets(0x400, 0x400),
        word::RTSPECIALNAME => sets(0x800, 0x800),
        word::IMPORT => sets(0x1000, 0x1000),
        word::SERIALIZABLE => sets(0x2000, 0x2000),
        word::BEFOREFIELDINIT => sets(0x100000, 0x100000),
        _ => None,
    }
}

/// A word behind `nested` (ECMA-335 II.23.1.15).
pub fn nested_word(word: u16) -> Option<Bits>
    ensures { IsFlagOf nested_words word result }
{
    match word {
        word::PUBLIC => sets(7, 2),
        word::PRIVATE => sets(7, 3),
        word::FAMILY => sets(7, 4),
        word::ASSEMBLY => sets(7, 5),
        word::FAMANDASSEM => sets(7, 6),
        word::FAMORASSEM => sets(7, 7),
        _ => None,
    }
}

/// A word for the flags of a field (ECMA-335 II.16.1, II.23.1.5).
pub fn field_word(word: u16) -> Option<Bits>
    ensures { IsFlagOf field_words word result }
{
    match word {
        word::PRIVATESCOPE => sets(7, 0),
        word::COMPILERCONTROLLED => sets(7, 0),
        word::PRIVATE => sets(7, 1),
        word::FAMANDASSEM => sets(7, 2),
        word::ASSEMBLY => sets(7, 3),
        word::FAMILY => sets(7, 4),
        word::FAMORASSEM => sets(7, 5),
        word::PUBLIC => sets(7, 6),
        word::STATIC => sets(0x10, 0x10),
        word::INITONLY => sets(0x20, 0x20),
        word::LITERAL => sets(0x40, 0x40),
        word::NOTSERIALIZED => sets(0x80, 0x80),
        word::SPECIALNAME => sets(0x200, 0x200),
        word::RTSPECIALNAME => sets(0x400, 0x400),
        _ => None,
    }
}

/// A word for the flags of a method (ECMA-335 II.15.4.2, II.23.1.10).
pub fn method_word(word: u16) -> Option<Bits>
    ensures { IsFlagOf method_words word result }
{
    match word {
        word::PRIVATESCOPE => sets(7, 0),
        word::COMPILERCONTROLLED => sets(7, 0),
        word::PRIVATE => sets(7, 1),
        word::FAMANDASSEM => sets(7, 2),
        word::ASSEMBLY => sets(7, 3),
        word::FAMILY => sets(7, 4),
        word::FAMORASSEM => sets(7, 5),
        word::PUBLIC => sets(7, 6),
        word::STATIC => sets(0x10, 0x10),
        word::FINAL => sets(0x20, 0x20),
        word::VIRTUAL => sets(0x40, 0x40),
        word::HIDEBYSIG => sets(0x80, 0x80),
        word::NEWSLOT => sets(0x100, 0x100),
        word::STRICT => sets(0x200, 0x200),
        word::ABSTRACT => sets(0x400, 0x400),
        word::SPECIALNAME => sets(0x800, 0x800),
        word::RTSPECIALNAME => sets(0x1000, 0x1000),
        word::REQSECOBJ => sets(0x8000, 0x8000),
        _ => None,
    }
}

/// A word for the implementation flags of a method (ECMA-335 II.15.4.3, II.23.1.11).
pub fn implementation_word(word: u16) -> Option<Bits>
    ensures { IsFlagOf implementation_words word result }
{
    match word {
        word::CIL => sets(3, 0),
        word::RUNTIME => sets(3, 3),
        word::MANAGED => sets(4, 0),
        word::NOINLINING => sets(8, 8),
        word::FORWARDREF => sets(0x10, 0x10),
        word::SYNCHRONIZED => sets(0x20, 0x20),
        word::NOOPTIMIZATION => sets(0x40, 0x40),
        word::PRESERVESIG => sets(0x80, 0x80),
        word::AGGRESSIVEINLINING => sets(0x100, 0x100),
        word::INTERNALCALL => sets(0x1000, 0x1000),
        _ => None,
    }
}

/// A word for the flags of a parameter (ECMA-335 II.15.4, II.23.1.13).
pub fn parameter_word(word: u16) -> Option<Bits>
    ensures { IsFlagOf parameter_words word result }
{
    match word {
        word::BRACKET_IN => sets(1, 1),
        word::BRACKET_OUT => sets(2, 2),
        word::BRACKET_OPT => sets(0x10, 0x10),
        _ => None,
    }
}

/// A word for the flags of a property or an event (ECMA-335 II.17, II.18, II.23.1.4, II.23.1.14).
pub fn property_word(word: u16) -> Option<Bits>
    ensures { IsFlagOf property_words word result }
{
    match word {
        word::SPECIALNAME => sets(0x200, 0x200),
        word::RTSPECIALNAME => sets(0x400, 0x400),
        _ => None,
    }
}

/// A word for the flags of a generic parameter (ECMA-335 II.10.1.7, II.23.1.7).
pub fn typar_word(word: u16) -> Option<Bits>
    ensures { IsFlagOf typar_words word result }
{
    match word {
        word::PLUS => sets(3, 1),
        word::MINUS => sets(3, 2),
        word::CLASS => sets(4, 4),
        word::VALUETYPE => sets(8, 8),
        word::DOT_CTOR => sets(0x10, 0x10),
        _ => None,
    }
}

/// A word for the flags of an assembly (ECMA-335 II.6.2, II.23.1.2).
pub fn assembly_word(word: u16) -> Option<Bits>
    ensures { IsFlagOf assembly_words word result }
{
    match word {
        word::RETARGETABLE => sets(0x100, 0x100),
        _ => None,
    }
}

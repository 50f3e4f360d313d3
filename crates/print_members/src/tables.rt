//! The words of flags in the order of a listing (ECMA-335 II.10.1, II.15.4.2, II.23.1).

use il_lexer::word;

/// A word, the bits of its group, and the value that it stands for.
pub(crate) struct FlagRow {
    pub(crate) word: u16,
    pub(crate) group: u32,
    pub(crate) value: u32,
}

macro_rules! rows {
    ($($word:ident $group:literal $value:literal;)*) => {
        [$(FlagRow { word: word::$word, group: $group, value: $value },)*]
    };
}

pub(crate) static TYPE_ACCESS: [FlagRow; 2] = rows![PRIVATE 7 0; PUBLIC 7 1;];

pub(crate) static NESTED_ACCESS: [FlagRow; 6] = rows![
    PUBLIC 7 2; PRIVATE 7 3; FAMILY 7 4; ASSEMBLY 7 5; FAMANDASSEM 7 6; FAMORASSEM 7 7;
];

pub(crate) static TYPE_WORDS: [FlagRow; 14] = rows![
    AUTO 0x18 0; SEQUENTIAL 0x18 8; EXPLICIT 0x18 0x10; ANSI 0x30000 0; UNICODE 0x30000 0x10000;
    AUTOCHAR 0x30000 0x20000; INTERFACE 0x20 0x20; ABSTRACT 0x80 0x80; SEALED 0x100 0x100;
    SPECIALNAME 0x400 0x400; RTSPECIALNAME 0x800 0x800; IMPORT 0x1000 0x1000;
    SERIALIZABLE 0x2000 0x2000; BEFOREFIELDINIT 0x100000 0x100000;
];

pub(crate) static FIELD_WORDS: [FlagRow; 13] = rows![
    PRIVATESCOPE 7 0; PRIVATE 7 1; FAMANDASSEM 7 2; ASSEMBLY 7 3; FAMILY 7 4; FAMORASSEM 7 5;
    PUBLIC 7 6; STATIC 0x10 0x10; INITONLY 0x20 0x20; LITERAL 0x40 0x40; NOTSERIALIZED 0x80 0x80;
    SPECIALNAME 0x200 0x200; RTSPECIALNAME 0x400 0x400;
];

pub(crate) static METHOD_WORDS: [FlagRow; 17] = rows![
    PRIVATESCOPE 7 0; PRIVATE 7 1; FAMANDASSEM 7 2; ASSEMBLY 7 3; FAMILY 7 4; FAMORASSEM 7 5;
    PUBLIC 7 6; STATIC 0x10 0x10; FINAL 0x20 0x20; VIRTUAL 0x40 0x40; HIDEBYSIG 0x80 0x80;
    NEWSLOT 0x100 0x100; STRICT 0x200 0x200; ABSTRACT 0x400 0x400; SPECIALNAME 0x800 0x800;
    RTSPECIALNAME 0x1000 0x1000; REQSECOBJ 0x8000 0x8000;
];

pub(crate) static IMPLEMENTATION_WORDS: [FlagRow; 10] = rows![
    CIL 3 0; RUNTIME 3 3; MANAGED 4 0; NOINLINING 8 8; FORWARDREF 0x10 0x10;
    SYNCHRONIZED 0x20 0x20; NOOPTIMIZATION 0x40 0x40; PRESERVESIG 0x80 0x80;
    AGGRESSIVEINLINING 0x100 0x100; INTERNALCALL 0x1000 0x1000;
];

pub(crate) static PARAMETER_WORDS: [FlagRow; 3] =
    rows![BRACKET_IN 1 1; BRACKET_OUT 2 2; BRACKET_OPT 0x10 0x10;];

pub(crate) static PROPERTY_WORDS: [FlagRow; 2] =
    rows![SPECIALNAME 0x200 0x200; RTSPECIALNAME 0x400 0x400;];

pub(crate) static TYPAR_WORDS: [FlagRow; 5] =
    rows![PLUS 3 1; MINUS 3 2; CLASS 4 4; VALUETYPE 8 8; DOT_CTOR 0x10 0x10;];

pub(crate) static ASSEMBLY_WORDS: [FlagRow; 1] = rows![RETARGETABLE 0x100 0x100;];

use crate::{TypeName, Types};
use il_lists::{Boxed, Numbers, Signed};

/// The types that a signature has an element type for (ECMA-335 II.23.1.16).
#[derive(Debug, Clone, Copy, PartialEq, Eq, Drop)]
pub enum Primitive {
    Void,
    Bool,
    Char,
    I1,
    U1,
    I2,
    U2,
    I4,
    U4,
    I8,
    U8,
    R4,
    R8,
    Str,
    Object,
    TypedRef,
    NInt,
    NUint,
}

/// The type of a signature (ECMA-335 II.23.2.12).
#[cycle(terms)]
#[derive(Drop)]
pub enum SigType {
    Prim(Primitive),
    /// `class X`
    Class(TypeName),
    /// `valuetype X`
    Value(TypeName),
    /// A generic type with its arguments; a value type where `value` is set (ECMA-335 II.23.2.12).
    Inst {
        value: bool,
        name: Boxed<TypeName>,
        args: Boxed<Types>,
    },
    /// The generic parameter of the class with this number, `!n`.
    Var(u32),
    /// The generic parameter of the method with this number, `!!n`.
    MVar(u32),
    /// A vector, `T[]`.
    SzArray(Boxed<SigType>),
    /// An array with its shape (ECMA-335 II.23.2.13).
    Array {
        of: Boxed<SigType>,
        rank: u32,
        sizes: Boxed<Numbers>,
        lower: Boxed<Signed>,
    },
    /// `T&`
    ByRef(Boxed<SigType>),
    /// `T*`
    Pointer(Boxed<SigType>),
    /// A type with a custom modifier (ECMA-335 II.23.2.7).
    Mod {
        required: bool,
        by: Boxed<Owner>,
        of: Boxed<SigType>,
    },
    /// The type of a local that stays where it is (ECMA-335 II.23.2.9).
    Pinned(Boxed<SigType>),
}

/// What a member, a base or a modifier names: a type by its name, or a type made from others (ECMA-335
/// II.24.2.6, TypeDefOrRef).
#[cycle(terms)]
#[derive(Drop)]
pub enum Owner {
    Name(TypeName),
    Spec(SigType),
}

use crate::{SigId, SigIds};
use il_lists::{Numbers, Signed};
use type_terms::{Prim, TypeName};

/// One node of a type, with ids in place of the types in it. Each variant stands for the variant of
/// `SigType` with its name (ECMA-335 II.23.2.12).
#[derive(Drop)]
pub enum Node {
    Prim(Prim),
    Class(TypeName),
    Value(TypeName),
    Inst {
        value: bool,
        name: TypeName,
        args: SigIds,
    },
    Var(u32),
    MVar(u32),
    SzArray(SigId),
    Array {
        of: SigId,
        rank: u32,
        sizes: Numbers,
        lower: Signed,
    },
    ByRef(SigId),
    Pointer(SigId),
    Mod {
        required: bool,
        by: NodeOwner,
        of: SigId,
    },
    Pinned(SigId),
}

/// What a modifier names (ECMA-335 II.23.2.7), with an id in place of a type.
#[derive(Drop)]
pub enum NodeOwner {
    Name(TypeName),
    Spec(SigId),
}

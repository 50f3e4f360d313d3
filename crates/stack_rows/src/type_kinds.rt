//! What is asked of a type by its id in a pool.
ghost use Rattle.std.specs.Prelude.{◌≡◌, ◌<◌, length};
ghost use Rattle.type_hierarchy.specs.Stack.{is_reference, is_reference_primitive};
ghost use Rattle.code_flow.specs.Rules.{is_by_reference};
ghost use Rattle.stack_rows.specs.TypeKinds.{is_void, is_void_primitive};
ghost use Rattle.sig_pool.specs.Terms.{term_of};

use sig_pool::{Node, SigId, SigPool};
use type_terms::Prim;

/// Whether it is a reference type (ECMA-335 I.8.2.1). Takes no memory.
pub fn is_reference(pool: &SigPool, id: SigId) -> bool
    requires { id < length pool.now }
    ensures { result ≡ is_reference (term_of pool.now id) }
{
    match pool.node(id) {
        Node::Prim(prim) => is_reference_primitive(*prim),
        Node::Inst { value, .. } => !*value,
        Node::Class(_) => true,
        Node::SzArray(_) => true,
        Node::Array { .. } => true,
        Node::Value(_) => false,
        Node::Var(_) => false,
        Node::MVar(_) => false,
        Node::ByRef(_) => false,
        Node::Pointer(_) => false,
        Node::Mod { .. } => false,
        Node::Pinned(_) => false,
    }
}

fn is_reference_primitive(prim: Prim) -> bool
    ensures { result ≡ is_reference_primitive prim }
{
    match prim {
        Prim::Str | Prim::Object => true,
        Prim::Void
        | Prim::Bool
        | Prim::Char
        | Prim::I1
        | Prim::U1
        | Prim::I2
        | Prim::U2
        | Prim::I4
        | Prim::U4
        | Prim::I8
        | Prim::U8
        | Prim::R4
        | Prim::R8
        | Prim::TypedRef
        | Prim::NInt
        | Prim::NUint => false,
    }
}

/// Whether it is a managed pointer (ECMA-335 II.14.4.2). Takes no memory.
pub fn is_by_reference(pool: &SigPool, id: SigId) -> bool
    requires { id < length pool.now }
    ensures { result ≡ is_by_reference (term_of pool.now id) }
{
    match pool.node(id) {
        Node::ByRef(_) => true,
        Node::Prim(_) => false,
        Node::Inst { .. } => false,
        Node::Class(_) => false,
        Node::SzArray(_) => false,
        Node::Array { .. } => false,
        Node::Value(_) => false,
        Node::Var(_) => false,
        Node::MVar(_) => false,
        Node::Pointer(_) => false,
        Node::Mod { .. } => false,
        Node::Pinned(_) => false,
    }
}

/// Whether it is void. Takes no memory.
pub fn is_void(pool: &SigPool, id: SigId) -> bool
    requires { id < length pool.now }
    ensures { result ≡ is_void (term_of pool.now id) }
{
    match pool.node(id) {
        Node::Prim(prim) => is_void_primitive(*prim),
        Node::ByRef(_) => false,
        Node::Inst { .. } => false,
        Node::Class(_) => false,
        Node::SzArray(_) => false,
        Node::Array { .. } => false,
        Node::Value(_) => false,
        Node::Var(_) => false,
        Node::MVar(_) => false,
        Node::Pointer(_) => false,
        Node::Mod { .. } => false,
        Node::Pinned(_) => false,
    }
}

fn is_void_primitive(prim: Prim) -> bool
    ensures { result ≡ is_void_primitive prim }
{
    match prim {
        Prim::Void => true,
        Prim::Str
        | Prim::Object
        | Prim::Bool
        | Prim::Char
        | Prim::I1
        | Prim::U1
        | Prim::I2
        | Prim::U2
        | Prim::I4
        | Prim::U4
        | Prim::I8
        | Prim::U8
        | Prim::R4
        | Prim::R8
        | Prim::TypedRef
        | Prim::NInt
        | Prim::NUint => false,
    }
}

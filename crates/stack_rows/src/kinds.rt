//! Kinds of stack types (ECMA-335 III.1.5). Nothing here takes memory.
ghost use Rattle.std.specs.Prelude.{◌≡◌, ◌↔◌, List, IsTrue};
ghost use Rattle.sig_pool.specs.declared.node.Node.{Node};
ghost use Rattle.type_hierarchy.specs.Meaning.{meant};
ghost use Rattle.type_hierarchy.specs.Stack as stack;
ghost use Rattle.code_flow.specs.Demands.{is_number, is_integer, is_index, is_object, is_pointer};

use type_order::StackType;

pub fn is_bad(t: &StackType) -> bool
    ensures { (ns : List Node) → IsTrue result ↔ (meant ns t.now ≡ stack.bad) }
{
    match t {
        StackType::Bad => true,
        StackType::I4
        | StackType::I8
        | StackType::N
        | StackType::F
        | StackType::Null
        | StackType::Ref(_)
        | StackType::Boxed(_)
        | StackType::Val(_)
        | StackType::Ptr(_) => false,
    }
}

pub fn is_null(t: &StackType) -> bool
    ensures { (ns : List Node) → IsTrue result ↔ (meant ns t.now ≡ stack.null) }
{
    match t {
        StackType::Null => true,
        StackType::I4
        | StackType::I8
        | StackType::N
        | StackType::F
        | StackType::Bad
        | StackType::Ref(_)
        | StackType::Boxed(_)
        | StackType::Val(_)
        | StackType::Ptr(_) => false,
    }
}

/// Whether it is int32, int64, native int or float.
pub fn is_number(t: &StackType) -> bool
    ensures { (ns : List Node) → result ≡ is_number (meant ns t.now) }
{
    match t {
        StackType::I4 | StackType::I8 | StackType::N | StackType::F => true,
        StackType::Null
        | StackType::Bad
        | StackType::Ref(_)
        | StackType::Boxed(_)
        | StackType::Val(_)
        | StackType::Ptr(_) => false,
    }
}

/// Whether it is a number but float.
pub fn is_integer(t: &StackType) -> bool
    ensures { (ns : List Node) → result ≡ is_integer (meant ns t.now) }
{
    match t {
        StackType::I4 | StackType::I8 | StackType::N => true,
        StackType::F
        | StackType::Null
        | StackType::Bad
        | StackType::Ref(_)
        | StackType::Boxed(_)
        | StackType::Val(_)
        | StackType::Ptr(_) => false,
    }
}

/// Whether it is int32 or native int.
pub fn is_index(t: &StackType) -> bool
    ensures { (ns : List Node) → result ≡ is_index (meant ns t.now) }
{
    match t {
        StackType::I4 | StackType::N => true,
        StackType::I8
        | StackType::F
        | StackType::Null
        | StackType::Bad
        | StackType::Ref(_)
        | StackType::Boxed(_)
        | StackType::Val(_)
        | StackType::Ptr(_) => false,
    }
}

/// Whether it is an object reference.
pub fn is_object(t: &StackType) -> bool
    ensures { (ns : List Node) → result ≡ is_object (meant ns t.now) }
{
    match t {
        StackType::Null | StackType::Ref(_) | StackType::Boxed(_) => true,
        StackType::I4
        | StackType::I8
        | StackType::N
        | StackType::F
        | StackType::Bad
        | StackType::Val(_)
        | StackType::Ptr(_) => false,
    }
}

/// Whether it is a managed pointer.
pub fn is_pointer(t: &StackType) -> bool
    ensures { (ns : List Node) → result ≡ is_pointer (meant ns t.now) }
{
    match t {
        StackType::Ptr(_) => true,
        StackType::I4
        | StackType::I8
        | StackType::N
        | StackType::F
        | StackType::Null
        | StackType::Bad
        | StackType::Ref(_)
        | StackType::Boxed(_)
        | StackType::Val(_) => false,
    }
}
